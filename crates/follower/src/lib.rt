#![tactic(auto)]
// A follower of a table: it is changed by each event it takes, counts those that a mask says count, and answers its row's mark.
ghost use Rattle.std.specs.Prelude.{◌≡◌};
ghost use Rattle.rules.specs.Rules.{lent, offset_of};
ghost use Rattle.following.specs.Moves.{advanced};
ghost use Rattle.follower.specs.Follow.{begun, moved, settled, shown};

use following::Follower;
use rules::{Refusal, Rule, Table};

// A mark: whether it is ready, and whether it is settled.
#[derive(Clone, Copy)]
pub struct Shown {
    pub ready: bool,
    pub settled: bool,
}

// A follower at the start of a table.
#[tactic(auto, unfolding(crate::specs::Follow::begun))]
pub fn begin(table: Table<'_>) -> Result<Follower, Refusal>
    ensures { result ≡ begun (lent table.entry) }
{
    following::checked(table)?;
    Ok(Follower {
        row: table.start as u16,
        count: 0,
    })
}

// The follower takes an event.
pub fn step(f: &mut Follower, mask: u32, table: Table<'_>, event: usize) -> Result<(), Refusal>
    ensures { let T = lent table.entry in
        let next = advanced mask T f.old.row f.old.count event in
        (f.new ≡ moved next) × (result ≡ next.verdict) }
{
    let row = f.row;
    let count = f.count;
    let next = following::advance(mask, table, row, count, event);
    f.row = next.row;
    f.count = next.count;
    next.verdict
}

// A follower and what the step said.
#[derive(Clone, Copy)]
pub struct Outcome {
    pub to: Follower,
    pub verdict: Result<(), Refusal>,
}

// The same for a follower by value: it is lent here, and callers need not lend one.
pub fn stepped(f: Follower, mask: u32, table: Table<'_>, event: usize) -> Outcome
    ensures { let T = lent table.entry in
        let next = advanced mask T f.row f.count event in
        (result.to ≡ moved next) × (result.verdict ≡ next.verdict) }
{
    let mut g = f;
    let verdict = step(&mut g, mask, table, event);
    Outcome { to: g, verdict }
}

// Whether the count has reached the offset; with none, never.
fn is_settled(offset: Option<u16>, count: u16) -> bool
    ensures { result ≡ settled (offset_of offset) count }
{
    match offset {
        Some(k) => k <= count,
        None => false,
    }
}

// The mark of a follower's row, and whether it is settled.
#[tactic(auto, using(crate::proofs::Answering::shown_is))]
pub fn answer(offset: Option<u16>, f: Follower, table: Table<'_>) -> Result<Shown, Refusal>
    ensures { result ≡ shown (offset_of offset) (lent table.entry) f.row f.count }
{
    following::checked(table)?;
    let row = f.row as usize;
    if table.rows <= row {
        return Err(Rule::Row.at(0));
    }
    let ready = marks::mark(table.marks, row) == 1;
    Ok(Shown {
        ready,
        settled: is_settled(offset, f.count),
    })
}
