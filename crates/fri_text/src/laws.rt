// What holds of words, whatever they are. These calls do nothing.
ghost use Rattle.fri_text.specs.Laws.{WordsReadBack, ExactHex};

/// A number or bytes are read from the word that writing them gives.
pub fn words_read_back()
    ensures { WordsReadBack }
{}

/// Exactly the words of hexadecimal digits, an even number of them and some, and the word `-` write bytes.
pub fn exact_hex()
    ensures { ExactHex }
{}
