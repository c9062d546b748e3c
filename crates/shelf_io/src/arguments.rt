use std::env;
use std::io::{self, ErrorKind};
use std::rt::Env;

/// The words of the command line, without the program's name. A word that is not UTF-8 is in no
/// command, so there are no words then.
pub fn words(rt: &(impl Env + AllocGlobal)) -> io::Result<Vec<String>> {
    let mut words = Vec::new(rt.alloc());
    match env::args(rt) {
        Ok(args) => {
            for word in args.skip(1) {
                words.push(word)?;
            }
            Ok(words)
        }
        Err(error) if error.kind() == ErrorKind::InvalidData => Ok(words),
        Err(error) => Err(error),
    }
}
