//! The words of the program.
use am_types::{NoMemory, Text};
use std::env;
use std::io::ErrorKind;
use std::rt::Env;

/// The words after the program's name. If one of them isn't UTF-8 there are none, since no command has such a word.
pub fn read_words<R: Env + AllocGlobal>(rt: &R) -> Result<Vec<Text>, NoMemory> {
    let mut words = Vec::new(rt.alloc());
    match env::args(rt) {
        Ok(args) => {
            for word in args.skip(1) {
                words.push(Text::new(word))?;
            }
        }
        Err(error) if error.kind() == ErrorKind::OutOfMemory => return Err(NoMemory),
        Err(_) => {}
    }
    Ok(words)
}
