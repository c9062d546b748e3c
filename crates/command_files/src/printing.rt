ghost use Rattle.std.specs.Prelude.{MatchResult};
ghost use Rattle.shelf_io.specs.Sink.{PutAll, PutSome};
ghost use Rattle.printed_lines.specs.Texts.{part_of, text_of};

use printed_lines::{NamedPart, Text};
use shelf_io::{Sink, SinkFault};

/// Puts a text, part by part, up to the first that fails.
pub fn put_text<K: Sink>(out: &mut K, text: &Text<'_>) -> Result<(), SinkFault>
    ensures { MatchResult result
        (λ _. PutAll (text_of text.now) (K.view out.old) (K.view out.new))
        (λ _. PutSome (text_of text.now) (K.view out.old) (K.view out.new)) }
{
    for part in &text.parts {
        match put_part(out, part) {
            Ok(()) => {}
            Err(fault) => return Err(fault),
        }
    }
    put_piece(out, &text.rest)
}

/// Puts bytes, and then the name behind them.
fn put_part<K: Sink>(out: &mut K, part: &NamedPart<'_>) -> Result<(), SinkFault>
    ensures { MatchResult result
        (λ _. PutAll (part_of part.now) (K.view out.old) (K.view out.new))
        (λ _. PutSome (part_of part.now) (K.view out.old) (K.view out.new)) }
{
    match put_piece(out, &part.before) {
        Ok(()) => put_piece(out, part.name),
        Err(fault) => Err(fault),
    }
}

/// Puts bytes in one piece.
pub fn put_piece<K: Sink>(out: &mut K, piece: &[u8]) -> Result<(), SinkFault>
    ensures { MatchResult result
        (λ _. PutAll piece.now (K.view out.old) (K.view out.new))
        (λ _. PutSome piece.now (K.view out.old) (K.view out.new)) }
{
    match out.put(piece) {
        Ok(()) => Ok(()),
        Err(fault) => Err(fault),
    }
}
