use super::*;
use std::alloc::Global;
use std::test::Fail;

// The words of a line.
fn words_of(alloc: Global, line: &str) -> Result<Vec<String>, Fail> {
    let mut words = Vec::new(alloc);
    for word in line.split(' ') {
        if !word.is_empty() {
            words.push(String::from_str(alloc, word)?)?;
        }
    }
    Ok(words)
}

// What words are: the seed and the frames of a demo, and the workers; none where they are no command.
type Read = Option<(Option<(u32, u32)>, u32)>;

fn read(alloc: Global, line: &str) -> Result<Read, Fail> {
    let words = words_of(alloc, line)?;
    match read_words(alloc, &words) {
        Ok(
            Command::Fuse {
                workers,
                keep: None,
            },
        ) => Ok(Some((None, workers))),
        Ok(
            Command::Demo {
                seed,
                frames,
                workers,
            },
        ) => Ok(Some((Some((seed, frames)), workers))),
        Err(WordError::Usage) => Ok(None),
        _ => Err(Fail::from("another answer")),
    }
}

#[test]
fn words_are_commands(rt: HostRuntime) -> Result<(), Fail> {
    let alloc = rt.alloc();
    for (line, wanted) in [
        ("", None),
        ("fuse", Some((None, 4))),
        ("fuse --workers=64", Some((None, 64))),
        ("fuse --workers 0", None),
        ("fuse --workers 65", None),
        ("fuse --workers 4 --workers 4", None),
        ("fuse --keep chunks", None),
        ("demo --help", None),
        ("demo 7", None),
        ("demo 7 0", None),
        ("demo 7 1000", Some((Some((7, 1000)), 4))),
        ("demo 7 1001", None),
        ("demo 4294967295 3", Some((Some((4_294_967_295, 3)), 4))),
        ("demo 4294967296 3", None),
        ("demo 0000000007 3", Some((Some((7, 3)), 4))),
        ("demo 00000000007 3", None),
        ("demo 7 --workers=2 3", Some((Some((7, 3)), 2))),
    ] {
        assert_eq!(rt; read(alloc, line)?, wanted, "{line}");
    }
    Ok(())
}
