#![tactic(auto)]
// Answers as four numbers, and offsets as one, for programs in C or Rust.
ghost use Rattle.std.specs.Prelude.{◌≡◌};
ghost use Rattle.rules.specs.Rules.{offset_of};
ghost use Rattle.answers.specs.Answers.{four, of_refusal, of_count, of_read, of_told, of_ordered, of_verdict, offset_in};

use image_sections::Shape;
use last_run_rules::Told;
use ordering::Order;
use rules::Refusal;

// The offset that a number of 32 bits stands for: none above 65,535.
pub fn offset_of(k: u32) -> Option<u16>
    ensures { offset_of result ≡ offset_in k }
{
    if k < 65536 {
        return Some(k as u16);
    }
    None
}

fn put_four(answer: &mut [usize; 4], a: usize, b: usize, c: usize, d: usize)
    ensures { answer.new ≡ four a b c d }
{
    *answer = [a, b, c, d];
}

// A refusal by any number, also one that is no rule's.
pub fn put_refused(answer: &mut [usize; 4], number: usize, place: usize)
    ensures { answer.new ≡ four number place 0 0 }
{
    put_four(answer, number, place, 0, 0);
}

fn put_refusal(answer: &mut [usize; 4], refusal: Refusal)
    ensures { answer.new ≡ of_refusal refusal }
{
    put_refused(answer, refusal.rule.number(), refusal.place);
}

// Of a length, a number of tables or a number of rows.
pub fn put_count(answer: &mut [usize; 4], count: Result<usize, Refusal>)
    ensures { answer.new ≡ of_count count }
{
    match count {
        Ok(n) => put_four(answer, 0, n, 0, 0),
        Err(refusal) => put_refusal(answer, refusal),
    }
}

pub fn put_read(answer: &mut [usize; 4], read: Result<Shape, Refusal>)
    ensures { answer.new ≡ of_read read }
{
    match read {
        Ok(shape) => put_four(answer, 0, shape.rows, shape.events, shape.start),
        Err(refusal) => put_refusal(answer, refusal),
    }
}

pub fn put_told(answer: &mut [usize; 4], told: Result<Told, Refusal>)
    ensures { answer.new ≡ of_told told }
{
    match told {
        Ok(run) => put_four(answer, 0, run.distance, run.length, 0),
        Err(refusal) => put_refusal(answer, refusal),
    }
}

pub fn put_ordered(answer: &mut [usize; 4], ordered: Result<Order, Refusal>)
    ensures { answer.new ≡ of_ordered ordered }
{
    match ordered {
        Ok(Order::First) => put_four(answer, 0, 0, 0, 0),
        Ok(Order::Equal) => put_four(answer, 0, 1, 0, 0),
        Ok(Order::Second) => put_four(answer, 0, 2, 0, 0),
        Err(refusal) => put_refusal(answer, refusal),
    }
}

pub fn put_verdict(answer: &mut [usize; 4], verdict: Result<(), Refusal>)
    ensures { answer.new ≡ of_verdict verdict }
{
    match verdict {
        Ok(()) => put_four(answer, 0, 0, 0, 0),
        Err(refusal) => put_refusal(answer, refusal),
    }
}
