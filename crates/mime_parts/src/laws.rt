//! Laws of the definition of the parts of a multipart. Each is the contract of a function that does nothing: its clause
//! speaks of every boundary and of any bytes.
ghost use Rattle.std.specs.Prelude.{ℕ, List};
ghost use Rattle.kit.specs.Lines.{raw_lines};
ghost use Rattle.mime_parts.specs.Multiparts.{IsCutAt, IsCutInto, cut, spans};

/// The lines of each multipart are cut as the grammar of RFC 2046, section 5.1.1, has them: a preamble of lines that are
/// no delimiter lines, then delimiter lines, each with such lines after it, and then nothing, or the closing line and
/// any lines.
pub fn lines_are_cut_by_the_grammar()
    ensures grammar { (boundary : List ℕ) (bytes : List ℕ) → IsCutInto boundary (raw_lines bytes) (cut boundary (raw_lines bytes)) }
{}

/// Of the bytes of a multipart nothing is lost, and nothing is counted twice: they are the preamble, then of each part
/// its delimiter line, the part, and the line end that belongs to the delimiter line after it, and then the epilogue.
pub fn no_byte_is_lost()
    ensures whole { (boundary : List ℕ) (start : ℕ) (bytes : List ℕ) → IsCutAt boundary start bytes (spans boundary start bytes) }
{}
