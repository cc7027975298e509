// What a line of a script asks for.

use anyhow::{Context, bail};

/// Whose calls are to fail.
#[derive(Clone, Copy)]
pub enum Side {
    Files,
    Input,
    Output,
}

/// Which bytes of a file change from one call to the next.
#[derive(Clone, Copy)]
pub enum Change {
    Cut,
    /// These bits of one byte are turned.
    Turn(u8),
}

/// A line of a script. The pieces and the words stand as they are spelled.
pub enum Order<'a> {
    Keep {
        name: &'a str,
        pieces: &'a str,
    },
    Case(&'a str),
    File {
        name: &'a str,
        pieces: &'a str,
    },
    Add {
        name: &'a str,
        pieces: &'a str,
    },
    Cut {
        name: &'a str,
        len: usize,
    },
    Set {
        name: &'a str,
        at: usize,
        pieces: &'a str,
    },
    Input {
        piece: usize,
        pieces: &'a str,
    },
    Fail {
        side: Side,
        call: u64,
    },
    Run(&'a str),
    Both {
        first: &'a str,
        second: &'a str,
    },
    Stop {
        calls: usize,
        words: &'a str,
    },
    Sum(&'a str),
    Each {
        change: Change,
        name: &'a str,
        first: usize,
        last: usize,
        words: &'a str,
    },
    Show(&'a str),
}

// The first word and what follows the blank after it.
fn split_word(text: &str) -> (&str, &str) {
    text.split_once(' ').unwrap_or((text, ""))
}

fn number(word: &str) -> anyhow::Result<usize> {
    word.parse::<usize>()
        .context(format_args!("{word} is no number"))
}

fn fail(rest: &str) -> anyhow::Result<Order<'_>> {
    let (side, call) = split_word(rest);
    let side = match side {
        "files" => Side::Files,
        "input" => Side::Input,
        "output" => Side::Output,
        _ => bail!("only files, input and output fail"),
    };
    let call = call
        .parse::<u64>()
        .context(format_args!("{call} is no number"))?;
    Ok(Order::Fail { side, call })
}

fn each(change: Change, rest: &str) -> anyhow::Result<Order<'_>> {
    let (name, rest) = split_word(rest);
    let (first, rest) = split_word(rest);
    let (last, words) = split_word(rest);
    Ok(Order::Each {
        change,
        name,
        first: number(first)?,
        last: number(last)?,
        words,
    })
}

fn set(rest: &str) -> anyhow::Result<Order<'_>> {
    let (name, rest) = split_word(rest);
    let (at, pieces) = split_word(rest);
    Ok(Order::Set {
        name,
        at: number(at)?,
        pieces,
    })
}

fn cut(rest: &str) -> anyhow::Result<Order<'_>> {
    let (name, len) = split_word(rest);
    Ok(Order::Cut {
        name,
        len: number(len)?,
    })
}

fn both(rest: &str) -> anyhow::Result<Order<'_>> {
    let (first, second) = rest.split_once(" ; ").context("there is no second call")?;
    Ok(Order::Both { first, second })
}

fn stop(rest: &str) -> anyhow::Result<Order<'_>> {
    let (calls, words) = split_word(rest);
    Ok(Order::Stop {
        calls: number(calls)?,
        words,
    })
}

fn input(rest: &str) -> anyhow::Result<Order<'_>> {
    let (piece, pieces) = split_word(rest);
    Ok(Order::Input {
        piece: number(piece)?,
        pieces,
    })
}

/// What the line asks for.
pub fn read_order(line: &str) -> anyhow::Result<Order<'_>> {
    let (verb, rest) = split_word(line);
    let (name, pieces) = split_word(rest);
    match verb {
        "keep" => Ok(Order::Keep { name, pieces }),
        "case" => Ok(Order::Case(rest)),
        "file" => Ok(Order::File { name, pieces }),
        "add" => Ok(Order::Add { name, pieces }),
        "cut" => cut(rest),
        "set" => set(rest),
        "input" => input(rest),
        "fail" => fail(rest),
        "run" => Ok(Order::Run(rest)),
        "both" => both(rest),
        "stop" => stop(rest),
        "sum" => Ok(Order::Sum(rest)),
        "cuts" => each(Change::Cut, rest),
        "turns" => each(Change::Turn(0xff), rest),
        "flips" => each(Change::Turn(1), rest),
        "show" => Ok(Order::Show(rest)),
        _ => bail!("no line of a script begins with {verb}"),
    }
}
