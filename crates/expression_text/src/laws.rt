// What holds of lines and of the expressions in them, whatever they are. These calls do nothing.
ghost use Rattle.expression_text.specs.Laws.{ExactCut, ExactReading, NoSeparatorInExpr};

/// A line has its tokens or a first byte that begins none, and `cut_tokens` computes which.
pub fn exact_cut()
    ensures { ExactCut }
{}

/// Tokens spell one expression at most, and `expression_spelled` computes it.
pub fn exact_reading()
    ensures { ExactReading }
{}

/// No comma, semicolon, brace or string is in an expression.
pub fn none_apart()
    ensures { NoSeparatorInExpr }
{}
