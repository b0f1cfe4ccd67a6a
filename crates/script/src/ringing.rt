// Makes the calls at a ring kind.
ghost use Rattle.std.specs.Prelude.{◌≡◌, ◌++◌, IfOk, codes};
ghost use Rattle.script.specs.Calls.{ring_said, encode as encode_said, read as read_said, equal as equal_said};
ghost use Rattle.script.specs.Kits.{kit_of};
ghost use Rattle.script.specs.Records.{told, field};
ghost use Rattle.script.specs.Replies.{Calculated, RingReply, KindReply};

use crate::answer::Answer;
use crate::call::{Kind, RingCall};
use crate::cells::cell_text;
use crate::element::Element;
use crate::make::blank_buffer;
use ring::{Pair, Residue, Word};
use std::alloc::{AllocError, Global};

// Makes a call at its ring kind.
// The crates above have such a match too: a trait for what is done at a kind's type would want a struct and an impl for each.
pub(crate) fn ring_answer(heap: Global, kind: Kind, call: RingCall) -> Result<Answer, AllocError>
    ensures { IfOk result (KindReply kind (ring_said call)) }
{
    match kind {
        Kind::Residue => element_answer::<Residue>(heap, call),
        Kind::Word => element_answer::<Word>(heap, call),
        Kind::PairResidue => element_answer::<Pair<Residue>>(heap, call),
        Kind::PairWord => element_answer::<Pair<Word>>(heap, call),
        Kind::PairPairResidue => element_answer::<Pair<Pair<Residue>>>(heap, call),
        Kind::PairPairWord => element_answer::<Pair<Pair<Word>>>(heap, call),
    }
}

fn element_answer<R: Element + PartialEq>(
    heap: Global,
    call: RingCall,
) -> Result<Answer, AllocError>
    ensures { IfOk result (λ t. RingReply (kit_of R.Element R.PartialEq) t (ring_said call)) }
{
    match call {
        RingCall::ByteLength => Ok(Answer::ByteLength {
            length: R::byte_length(),
        }),
        RingCall::Encode { element, room } => encoded::<R>(heap, &element, room),
        RingCall::Read { bytes } => read_back::<R>(heap, &bytes),
        RingCall::Zero => tell(heap, R::zero()),
        RingCall::One => tell(heap, R::one()),
        RingCall::Plus { a, b } => calculated(heap, &a, &b, R::plus),
        RingCall::Minus { a, b } => calculated(heap, &a, &b, R::minus),
        RingCall::Times { a, b } => calculated(heap, &a, &b, R::times),
        RingCall::FromBool { set } => tell(heap, R::from_bool(set)),
        RingCall::Equal { a, b } => Ok(compared::<R>(&a, &b)),
    }
}

// The answer that tells an element.
fn tell<R: Element>(heap: Global, element: R) -> Result<Answer, AllocError>
    ensures { IfOk result (λ t. told t ≡ codes "ok" ++ field "element" (R.Element.text element)) }
{
    let text = cell_text(heap, element)?;
    Ok(Answer::Element { text })
}

fn encoded<R: Element + PartialEq>(
    heap: Global,
    numbers: &[usize],
    room: usize,
) -> Result<Answer, AllocError>
    ensures { IfOk result (λ t. RingReply (kit_of R.Element R.PartialEq) t (encode_said numbers.now room)) }
{
    let Some(element) = R::of(numbers) else {
        return Ok(Answer::NoCall);
    };
    let mut buffer = blank_buffer(heap, room)?;
    // A refusal is an answer here too, so the result is matched.
    match element.encode(&mut buffer) {
        Ok(written) => Ok(Answer::Written { written, buffer }),
        Err(fault) => Ok(Answer::RingFault { fault }),
    }
}

fn read_back<R: Element + PartialEq>(heap: Global, bytes: &[u8]) -> Result<Answer, AllocError>
    ensures { IfOk result (λ t. RingReply (kit_of R.Element R.PartialEq) t (read_said bytes.now)) }
{
    match R::read(bytes) {
        Some(element) => tell(heap, element),
        None => Ok(Answer::NoElement),
    }
}

// The answer that tells what an operation makes of two elements.
fn calculated<R: Element + PartialEq, F: FnOnce(R, R) -> R>(
    heap: Global,
    a: &[usize],
    b: &[usize],
    operation: F,
) -> Result<Answer, AllocError>
    requires { F.IsAlwaysCallable operation }
    ensures { IfOk result (λ t. Calculated (kit_of R.Element R.PartialEq) t a.now b.now (F.post operation)) }
{
    let (Some(x), Some(y)) = (R::of(a), R::of(b)) else {
        return Ok(Answer::NoCall);
    };
    tell(heap, operation(x, y))
}

fn compared<R: Element + PartialEq>(a: &[usize], b: &[usize]) -> Answer
    ensures { RingReply (kit_of R.Element R.PartialEq) result (equal_said a.now b.now) }
{
    let (Some(x), Some(y)) = (R::of(a), R::of(b)) else {
        return Answer::NoCall;
    };
    Answer::Equal { equal: x == y }
}
