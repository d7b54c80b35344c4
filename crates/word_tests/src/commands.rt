//! Words as a user writes them.

use command_words::{BUILD_USAGE, COMMANDS_USAGE, Request, asked, complaint, usage};
use std::alloc::Global;
use std::test::Fail;

fn words_of(alloc: Global, line: &str) -> Result<Vec<String>, Fail> {
    let mut words = Vec::new(alloc);
    for word in line.split_whitespace() {
        words.push(String::from_str(alloc, word)?)?;
    }
    Ok(words)
}

/// Whether a request has these values, in a line.
fn is_line(request: Option<Request>, line: &str, text: &mut String) -> Result<bool, Fail> {
    match request {
        None => text.push_str("none")?,
        Some(Request::Blobs { path }) => write!(text, "blobs {}", path.as_str())?,
        Some(Request::Build(options)) => write!(
            text,
            "build {} {} {} {}",
            options.input.as_str(),
            options.output.as_str(),
            options.workers,
            options.modes
        )?,
        Some(
            Request::Demo {
                side,
                seed,
                workers,
            },
        ) => write!(text, "demo {side} {seed} {workers}")?,
    }
    Ok(text.as_str() == line)
}

#[test]
fn commands(rt: HostRuntime) -> Result<(), Fail> {
    let alloc = rt.alloc();
    let rows = [
        ("build --output b --input=a", "build a b 1 79"),
        (
            "build --input a --output b --modes bus,auto --workers 7",
            "build a b 7 65",
        ),
        ("blobs a.pbf", "blobs a.pbf"),
        ("demo 100 1 --workers=3", "demo 100 1 3"),
        ("demo 1 1", "none"),
        ("build --input a", "none"),
    ];
    for (words, line) in rows {
        let words = words_of(alloc, words)?;
        let request = asked(alloc, words.as_slice())?;
        assert!(rt; is_line(request, line, &mut String::new(alloc))?);
    }
    Ok(())
}

#[test]
fn usages(rt: HostRuntime) -> Result<(), Fail> {
    let alloc = rt.alloc();
    let words = words_of(alloc, "build --help")?;
    assert!(rt; usage(alloc, words.as_slice())?.as_str() == BUILD_USAGE);
    assert!(rt; usage(alloc, &[])?.as_str() == COMMANDS_USAGE);
    Ok(())
}

#[test]
fn complaints(rt: HostRuntime) -> Result<(), Fail> {
    let alloc = rt.alloc();
    let words = words_of(alloc, "build --inptu a --output b")?;
    let text = complaint(alloc, words.as_slice())?;
    assert!(rt; text.is_some_and(|text| text.as_str().contains("'--input'")));
    let words = words_of(alloc, "build --help")?;
    assert!(rt; complaint(alloc, words.as_slice())?.is_none());
    Ok(())
}
