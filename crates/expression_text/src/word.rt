// The words and signs with a meaning of their own.
ghost use Rattle.std.specs.Prelude.{◌≡◌, ◌<◌, ◌^◌, IfSome, bytes_eq, length, position};
ghost use Rattle.std.specs.List.{list_all};
ghost use Rattle.expression_text.specs.Spelling.{is_word as is_word_text, is_word_byte as is_byte_of_word, binary_sign, binary_of, unary_sign, unary_of, agg_word, agg_of, place_word, place_of, node_of_word, node_spelled};

use crate::expr::{Agg, Binary, NodeName, Unary, Width};
use fri_bytes::Bytes;

/// The word that says which place of a node.
#[derive(Clone, Copy)]
pub(crate) enum PlaceWord {
    Load(Width),
    Global,
    Clock,
    Events,
    Size,
    Thread,
    Ended,
}

const BINARIES: [Binary; 13] = [
    Binary::Or,
    Binary::And,
    Binary::Eq,
    Binary::Ne,
    Binary::Lt,
    Binary::Le,
    Binary::Gt,
    Binary::Ge,
    Binary::Add,
    Binary::Sub,
    Binary::Mul,
    Binary::Div,
    Binary::Rem,
];

const UNARIES: [Unary; 2] = [Unary::Minus, Unary::Not];

const AGGS: [Agg; 4] = [Agg::Sum, Agg::Min, Agg::Max, Agg::Count];

const PLACES: [PlaceWord; 13] = [
    PlaceWord::Load(Width::U8),
    PlaceWord::Load(Width::U16),
    PlaceWord::Load(Width::U32),
    PlaceWord::Load(Width::I8),
    PlaceWord::Load(Width::I16),
    PlaceWord::Load(Width::I32),
    PlaceWord::Load(Width::I64),
    PlaceWord::Global,
    PlaceWord::Clock,
    PlaceWord::Events,
    PlaceWord::Size,
    PlaceWord::Thread,
    PlaceWord::Ended,
];

fn sign_of_binary(op: Binary) -> &'static str
    ensures { result.now ≡ binary_sign op }
{
    match op {
        Binary::Or => "||",
        Binary::And => "&&",
        Binary::Eq => "==",
        Binary::Ne => "!=",
        Binary::Lt => "<",
        Binary::Le => "<=",
        Binary::Gt => ">",
        Binary::Ge => ">=",
        Binary::Add => "+",
        Binary::Sub => "-",
        Binary::Mul => "*",
        Binary::Div => "/",
        Binary::Rem => "%",
    }
}

fn sign_of_unary(op: Unary) -> &'static str
    ensures { result.now ≡ unary_sign op }
{
    match op {
        Unary::Minus => "-",
        Unary::Not => "!",
    }
}

fn word_of_agg(agg: Agg) -> &'static str
    ensures { result.now ≡ agg_word agg }
{
    match agg {
        Agg::Sum => "sum",
        Agg::Min => "min",
        Agg::Max => "max",
        Agg::Count => "count",
    }
}

fn word_of_place(place: PlaceWord) -> &'static str
    ensures { result.now ≡ place_word place }
{
    match place {
        PlaceWord::Load(Width::U8) => "u8",
        PlaceWord::Load(Width::U16) => "u16",
        PlaceWord::Load(Width::U32) => "u32",
        PlaceWord::Load(Width::I8) => "i8",
        PlaceWord::Load(Width::I16) => "i16",
        PlaceWord::Load(Width::I32) => "i32",
        PlaceWord::Load(Width::I64) => "i64",
        PlaceWord::Global => "global",
        PlaceWord::Clock => "clock",
        PlaceWord::Events => "events",
        PlaceWord::Size => "size",
        PlaceWord::Thread => "thread",
        PlaceWord::Ended => "ended",
    }
}

/// The operator between two operands with this sign.
#[tactic(auto, unfolding(crate::specs::Spelling::binary_of))]
pub(crate) fn read_binary(sign: &[u8]) -> Option<Binary>
    ensures { result ≡ binary_of sign.now }
{
    BINARIES
        .iter()
        .copied()
        .find(|op| sign_of_binary(*op).as_bytes() == sign)
}

/// The operator before an operand with this sign.
#[tactic(auto, unfolding(crate::specs::Spelling::unary_of))]
pub(crate) fn read_unary(sign: &[u8]) -> Option<Unary>
    ensures { result ≡ unary_of sign.now }
{
    UNARIES
        .iter()
        .copied()
        .find(|op| sign_of_unary(*op).as_bytes() == sign)
}

/// The aggregate with this name.
#[tactic(auto, unfolding(crate::specs::Spelling::agg_of))]
pub(crate) fn read_agg(word: &[u8]) -> Option<Agg>
    ensures { result ≡ agg_of word.now }
{
    AGGS.iter()
        .copied()
        .find(|agg| word_of_agg(*agg).as_bytes() == word)
}

/// The place with this name.
#[tactic(auto, unfolding(crate::specs::Spelling::place_of))]
pub(crate) fn read_place(word: &[u8]) -> Option<PlaceWord>
    ensures { result ≡ place_of word.now }
{
    PLACES
        .iter()
        .copied()
        .find(|place| word_of_place(*place).as_bytes() == word)
}

/// The node that the token behind an at sign stands for, if it stands for one.
pub(crate) fn read_node(names: &[Bytes], text: &[u8]) -> Option<NodeName>
    requires { length names.now < 2 ^ 32 }
    ensures { result ≡ node_spelled names.now text.now }
{
    if text == b"!".as_slice() {
        return Some(NodeName::OfEvent);
    }
    if is_word(text) {
        Some(node_of_word(names, text))
    } else {
        None
    }
}

// The node that the word names.
#[tactic(auto, unfolding(crate::specs::Spelling::node_of_word))]
fn node_of_word(names: &[Bytes], word: &[u8]) -> NodeName
    requires { length names.now < 2 ^ 32 }
    ensures { result ≡ node_of_word names.now word.now }
{
    if word == b"_".as_slice() {
        return NodeName::Each;
    }
    match find_name(names, word) {
        Some(place) => NodeName::Named(Some(place as u32)),
        None => NodeName::Named(None),
    }
}

/// Where this name is among the names.
pub fn find_name(names: &[Bytes], word: &[u8]) -> Option<usize>
    ensures place { result ≡ position (λ name. bytes_eq name word.now) names.now }
    ensures within { IfSome result (λ n. n < length names.now) }
{
    names.iter().position(|name| name.as_slice() == word)
}

/// A letter, a digit or an underscore.
pub(crate) fn is_word_byte(b: u8) -> bool
    ensures { result ≡ is_byte_of_word b }
{
    b.is_ascii_alphanumeric() || b == b'_'
}

/// Whether the bytes are a word: letters, digits and underscores, one or more. It takes no memory.
pub fn is_word(text: &[u8]) -> bool
    ensures { result ≡ is_word_text text.now }
{
    !text.is_empty() && are_word_bytes(text)
}

fn are_word_bytes(bytes: &[u8]) -> bool
    ensures { result ≡ list_all is_byte_of_word bytes.now }
{
    bytes.iter().all(|b| is_word_byte(*b))
}
