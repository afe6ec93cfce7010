//! The directory that a program names first.
use crate::texts::texts;
use process_input::take_directory;
use std::alloc::{AllocError, Global};
use std::test::Fail;

// Whether this directory is taken from these words, and so many words are left.
fn is_taken(
    alloc: Global,
    words: &[&str],
    wanted: Option<&str>,
    left: usize,
) -> Result<bool, AllocError> {
    let mut words = texts(alloc, words)?;
    let directory = take_directory(&mut words);
    Ok(directory.as_deref() == wanted && words.len() == left)
}

#[test]
fn the_directory_is_the_word_after_the_name(rt: HostRuntime) -> Result<(), Fail> {
    let cases: [(&[&str], Option<&str>, usize); 7] = [
        (&[], None, 0),
        (&["atcheck"], None, 1),
        (&["atcheck", "/spool"], Some("/spool"), 1),
        (&["atcheck", "/spool", "--salvage"], Some("/spool"), 2),
        (&["atcheck", "--salvage", "/spool"], None, 3),
        (&["atcheck", "-"], None, 2),
        (&["atcheck", ""], Some(""), 1),
    ];
    for (words, directory, left) in cases {
        assert!(rt;
            is_taken(rt.alloc(), words, directory, left)?,
            "{directory:?} of {left}"
        );
    }
    Ok(())
}
