//! Which words after the program's name are names of files.
ghost use Rattle.std.specs.Prelude.{◌≡◌, drop, map};
ghost use Rattle.std.specs.String.{string_bytes};
ghost use Rattle.siit.specs.FileWords.{file_words_of};

/// The words that name files, of a command that writes files: all behind its other words. A `-` that stands for no file
/// is among them.
pub(crate) fn file_words(words: &[String]) -> &[String]
    ensures { map string_bytes result.now ≡ file_words_of (map string_bytes words.now) }
{
    let [command, words @ ..] = words else {
        return words;
    };
    match command.as_str() {
        "run" | "wkp" => words,
        "dns64" => behind(words, 1),
        "make" => behind(words, 2),
        _ => &[],
    }
}

/// What is left of the words behind the first ones.
fn behind(words: &[String], count: usize) -> &[String]
    ensures { result.now ≡ drop count words.now }
{
    &words[count.min(words.len())..]
}
