// The lines of some bytes.
ghost use Rattle.std.specs.Prelude.{◌≡◌, ◌<◌, [], ◌∷◌, length, option_map, IfSome, MatchOption};
ghost use Rattle.std.specs.List.{position};
ghost use Rattle.std.specs.Str.Lines.{strip_carriage_return};
ghost use Rattle.fri_bytes.specs.Reading.{TakesFromCursor};
ghost use Rattle.fri_text.specs.Line.{is_line_feed, line_at, lines_of};

use fri_bytes::Cursor;

/// The next line. It ends with a line feed or with the bytes, and is given without the line feed and
/// without one carriage return before its end. None comes only where nothing is left.
pub fn next_line<'a>(from: &mut Cursor<'a>) -> Option<&'a [u8]>
    ensures taken { TakesFromCursor from.old from.new (option_map (λ x. x.now) result) (line_at from.old.left) }

    // It is the first of all lines, and the others are those of the bytes that are left.
    ensures lines { MatchOption result (lines_of from.old.left ≡ [])
        (λ line. lines_of from.old.left ≡ line.now ∷ lines_of from.new.left) }
    ensures shorter { IfSome result (λ _. length from.new.left < length from.old.left) }
{
    let rest = from.rest();
    if rest.is_empty() {
        return None;
    }
    let end = line_feed_at(rest).unwrap_or(rest.len());
    let line = from.take(end)?;
    let _line_feed = from.byte();
    Some(without_carriage_return(line))
}

fn line_feed_at(bytes: &[u8]) -> Option<usize>
    ensures { result ≡ position is_line_feed bytes.now }
{
    bytes.iter().position(|b| *b == b'\n')
}

fn without_carriage_return(line: &[u8]) -> &[u8]
    ensures { result.now ≡ strip_carriage_return line.now }
{
    match line {
        [front @ .., b'\r'] => front,
        _ => line,
    }
}
