//! The words of each command, and of none.

use crate::{Command, WordsError, parse_words};
use std::alloc::Global;
use std::test::Fail;
use tv_text::series::Kind;

fn words(alloc: Global, texts: &[&str]) -> Result<Vec<String>, Fail> {
    let mut words = Vec::new(alloc);
    for text in texts {
        words.push(String::from_str(alloc, text)?)?;
    }
    Ok(words)
}

// What a command says of itself: the place of its name among the names, and its numbers, the kind of a series first; 0 for words
// that are refused.
fn told(command: Result<Command, WordsError>) -> (u32, i64, i64, i64) {
    match command {
        Ok(Command::Check) => (1, 0, 0, 0),
        Ok(
            Command::Series {
                kind: Kind::Full,
                degree,
                upto,
            },
        ) => (2, 0, degree as i64, upto),
        Ok(
            Command::Series {
                kind: Kind::Reduced,
                degree,
                upto,
            },
        ) => (2, 1, degree as i64, upto),
        Ok(Command::Gv { degree, upto }) => (3, degree as i64, upto, 0),
        Ok(Command::Boxes { chi, class }) => (4, chi, class.len() as i64, 0),
        Ok(Command::Generate { side }) => (5, side as i64, 0, 0),
        Ok(Command::Summary { side, degree, upto }) => (6, side as i64, degree as i64, upto),
        Ok(Command::Verify) => (7, 0, 0, 0),
        Err(_) => (0, 0, 0, 0),
    }
}

fn asked(alloc: Global, texts: &[&str]) -> Result<(u32, i64, i64, i64), Fail> {
    let words = words(alloc, texts)?;
    Ok(told(parse_words(alloc, &words)))
}

#[test]
fn each_command_is_asked_for(rt: HostRuntime) -> Result<(), Fail> {
    let alloc = rt.alloc();
    assert!(rt; asked(alloc, &["check"])? == (1, 0, 0, 0));
    assert!(rt; asked(alloc, &["series", "full", "24", "-64"])? == (2, 0, 24, -64));
    assert!(rt; asked(alloc, &["series", "reduced", "0", "64"])? == (2, 1, 0, 64));
    assert!(rt; asked(alloc, &["gv", "3", "1"])? == (3, 3, 1, 0));
    assert!(rt; asked(alloc, &["boxes", "-2", "1", "-1", "0"])? == (4, -2, 3, 0));
    assert!(rt; asked(alloc, &["generate", "7"])? == (5, 7, 0, 0));
    assert!(rt; asked(alloc, &["summary", "1", "2", "12"])? == (6, 1, 2, 12));
    assert!(rt; asked(alloc, &["verify"])? == (7, 0, 0, 0));
    Ok(())
}

fn refused_at(alloc: Global, texts: &[&str], place: u64) -> Result<bool, Fail> {
    let words = words(alloc, texts)?;
    match parse_words(alloc, &words) {
        Err(WordsError::At(found)) => Ok(found == place),
        _ => Ok(false),
    }
}

#[test]
fn words_are_refused_where_they_leave_every_list(rt: HostRuntime) -> Result<(), Fail> {
    let alloc = rt.alloc();
    assert!(rt; refused_at(alloc, &[], 0)?);
    assert!(rt; refused_at(alloc, &["Check"], 0)?);
    assert!(rt; refused_at(alloc, &["check", "check"], 1)?);
    assert!(rt; refused_at(alloc, &["series", "full", "25", "4"], 2)?);
    assert!(rt; refused_at(alloc, &["series", "full", "2", "04"], 3)?);
    assert!(rt; refused_at(alloc, &["gv", "2", "0"], 2)?);
    assert!(rt; refused_at(alloc, &["boxes", "0", "1", "x", "y"], 3)?);
    assert!(rt; refused_at(alloc, &["summary", "8", "2", "12"], 1)?);
    Ok(())
}
