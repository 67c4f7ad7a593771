use crate::failure::Failure;

/// Tells standard error why the program failed: one line, or the text that says why the words are refused.
pub fn tell<R: Eprint>(rt: &R, failure: &Failure) {
    let _ = match failure {
        Failure::Refused(text) => eprint!(rt; "{text}"),
        Failure::Replay(_)
        | Failure::Write
        | Failure::Memory
        | Failure::Serve(_)
        | Failure::Ask(_)
        | Failure::Scheme(_) => { eprintln!(rt; "{failure}") }
    };
}
