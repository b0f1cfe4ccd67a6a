// What the words of a line say of a call.
// Names are asked one after the other: with a `match` of byte strings, longer names among them, the proof did not close.
ghost use Rattle.std.specs.Prelude.{◌≡◌};
ghost use Rattle.script.specs.Calls.{said, ring_said, kind_of, pair_said, operands_say, new_says, minimum_says, show_says, height_says, encode_layout_says, encode_says, read_says, bool_says, operation_says, layout_says, ring_says, kind_says, meaning, bare_says};
ghost use Rattle.words.specs.Cuts.{texts};
ghost use Rattle.words.specs.Said.{Says};

use crate::call::{Call, Kind, RingCall};
use std::alloc::Global;
use words::{Unsaid, bytes, list, name, number, says, size, truth};

// The call that the words of a line say, if they say one.
#[tactic(auto, unfolding(crate::specs::Calls::meaning))]
pub fn parse(heap: Global, words: &[&[u8]]) -> Result<Call, Unsaid>
    ensures { Says said (meaning (texts words.now)) result }
{
    let [name, arguments @ ..] = words else {
        return Err(Unsaid::Nothing);
    };
    match layout_call(heap, name, arguments) {
        Err(Unsaid::Nothing) => kind_call(heap, name, arguments),
        told => told,
    }
}

fn layout_call(heap: Global, name: &[u8], arguments: &[&[u8]]) -> Result<Call, Unsaid>
    ensures { Says said (layout_says name.now (texts arguments.now)) result }
{
    if says(name, "new") {
        new_call(heap, arguments)
    } else if says(name, "with_min_dense_variables") {
        minimum_call(heap, arguments)
    } else if says(name, "show") {
        show_call(heap, arguments)
    } else if says(name, "column_height") {
        height_call(heap, arguments)
    } else if says(name, "encode_layout") {
        encode_layout_call(heap, arguments)
    } else {
        Err(Unsaid::Nothing)
    }
}

fn new_call(heap: Global, arguments: &[&[u8]]) -> Result<Call, Unsaid>
    ensures { Says said (new_says (texts arguments.now)) result }
{
    let [slot, rows, heights] = arguments else {
        return Err(Unsaid::Nothing);
    };
    Ok(Call::New {
        name: name(heap, slot)?,
        row_variables: number(rows).ok_or(Unsaid::Nothing)?,
        heights: list(heap, heights)?,
    })
}

fn minimum_call(heap: Global, arguments: &[&[u8]]) -> Result<Call, Unsaid>
    ensures { Says said (minimum_says (texts arguments.now)) result }
{
    let [slot, rows, heights, minimum] = arguments else {
        return Err(Unsaid::Nothing);
    };
    Ok(Call::WithMinDenseVariables {
        name: name(heap, slot)?,
        row_variables: number(rows).ok_or(Unsaid::Nothing)?,
        heights: list(heap, heights)?,
        minimum: number(minimum).ok_or(Unsaid::Nothing)?,
    })
}

fn show_call(heap: Global, arguments: &[&[u8]]) -> Result<Call, Unsaid>
    ensures { Says said (show_says (texts arguments.now)) result }
{
    let [slot] = arguments else {
        return Err(Unsaid::Nothing);
    };
    Ok(Call::Show {
        name: name(heap, slot)?,
    })
}

fn height_call(heap: Global, arguments: &[&[u8]]) -> Result<Call, Unsaid>
    ensures { Says said (height_says (texts arguments.now)) result }
{
    let [slot, column] = arguments else {
        return Err(Unsaid::Nothing);
    };
    Ok(Call::ColumnHeight {
        name: name(heap, slot)?,
        column: number(column).ok_or(Unsaid::Nothing)?,
    })
}

fn encode_layout_call(heap: Global, arguments: &[&[u8]]) -> Result<Call, Unsaid>
    ensures { Says said (encode_layout_says (texts arguments.now)) result }
{
    let [slot, room] = arguments else {
        return Err(Unsaid::Nothing);
    };
    Ok(Call::EncodeLayout {
        name: name(heap, slot)?,
        room: size(room).ok_or(Unsaid::Nothing)?,
    })
}

// A call at a ring kind, which stands first.
fn kind_call(heap: Global, name: &[u8], arguments: &[&[u8]]) -> Result<Call, Unsaid>
    ensures { Says said (kind_says name.now (texts arguments.now)) result }
{
    let [kind, arguments @ ..] = arguments else {
        return Err(Unsaid::Nothing);
    };
    Ok(Call::Ring {
        kind: ring_kind(kind).ok_or(Unsaid::Nothing)?,
        call: ring_call(heap, name, arguments)?,
    })
}

// The ring kind that a word names.
pub fn ring_kind(word: &[u8]) -> Option<Kind>
    ensures { result ≡ kind_of word.now }
{
    if says(word, "residue") {
        Some(Kind::Residue)
    } else if says(word, "word") {
        Some(Kind::Word)
    } else if says(word, "pair-residue") {
        Some(Kind::PairResidue)
    } else if says(word, "pair-word") {
        Some(Kind::PairWord)
    } else if says(word, "pair-pair-residue") {
        Some(Kind::PairPairResidue)
    } else if says(word, "pair-pair-word") {
        Some(Kind::PairPairWord)
    } else {
        None
    }
}

fn ring_call(heap: Global, name: &[u8], arguments: &[&[u8]]) -> Result<RingCall, Unsaid>
    ensures { Says ring_said (ring_says name.now (texts arguments.now)) result }
{
    if says(name, "byte_length") {
        bare_call(arguments, RingCall::ByteLength)
    } else if says(name, "zero") {
        bare_call(arguments, RingCall::Zero)
    } else if says(name, "one") {
        bare_call(arguments, RingCall::One)
    } else if says(name, "encode") {
        encode_call(heap, arguments)
    } else if says(name, "read") {
        read_call(heap, arguments)
    } else if says(name, "from_bool") {
        bool_call(arguments)
    } else {
        operation_call(heap, name, arguments)
    }
}

// A call that has nothing but its kind.
fn bare_call(arguments: &[&[u8]], call: RingCall) -> Result<RingCall, Unsaid>
    ensures { Says ring_said (bare_says (texts arguments.now) (ring_said call)) result }
{
    if arguments.is_empty() {
        Ok(call)
    } else {
        Err(Unsaid::Nothing)
    }
}

fn encode_call(heap: Global, arguments: &[&[u8]]) -> Result<RingCall, Unsaid>
    ensures { Says ring_said (encode_says (texts arguments.now)) result }
{
    let [element, room] = arguments else {
        return Err(Unsaid::Nothing);
    };
    Ok(RingCall::Encode {
        element: list(heap, element)?,
        room: size(room).ok_or(Unsaid::Nothing)?,
    })
}

fn read_call(heap: Global, arguments: &[&[u8]]) -> Result<RingCall, Unsaid>
    ensures { Says ring_said (read_says (texts arguments.now)) result }
{
    let [word] = arguments else {
        return Err(Unsaid::Nothing);
    };
    Ok(RingCall::Read {
        bytes: bytes(heap, word)?,
    })
}

fn bool_call(arguments: &[&[u8]]) -> Result<RingCall, Unsaid>
    ensures { Says ring_said (bool_says (texts arguments.now)) result }
{
    let [set] = arguments else {
        return Err(Unsaid::Nothing);
    };
    Ok(RingCall::FromBool {
        set: truth(set).ok_or(Unsaid::Nothing)?,
    })
}

// A call on two elements.
fn operation_call(heap: Global, name: &[u8], arguments: &[&[u8]]) -> Result<RingCall, Unsaid>
    ensures { Says ring_said (operation_says name.now (texts arguments.now)) result }
{
    let (a, b) = operands(heap, arguments)?;
    if says(name, "plus") {
        Ok(RingCall::Plus { a, b })
    } else if says(name, "minus") {
        Ok(RingCall::Minus { a, b })
    } else if says(name, "times") {
        Ok(RingCall::Times { a, b })
    } else if says(name, "equal") {
        Ok(RingCall::Equal { a, b })
    } else {
        Err(Unsaid::Nothing)
    }
}

// The numbers of two elements.
fn operands(heap: Global, arguments: &[&[u8]]) -> Result<(Vec<usize>, Vec<usize>), Unsaid>
    ensures { Says pair_said (operands_say (texts arguments.now)) result }
{
    let [a, b] = arguments else {
        return Err(Unsaid::Nothing);
    };
    Ok((list(heap, a)?, list(heap, b)?))
}
