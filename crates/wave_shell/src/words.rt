//! The files that the words name.

ghost use Rattle.std.specs.Prelude.{◌≡◌, ◌<◌, ◌++◌, Some, map, length, slice_get, option_map, string_bytes};
ghost use Rattle.wave_shell.specs.Words.{files, is_dashes, is_name, names_in, names_of};

/// The files that the words name.
#[derive(Drop)]
pub struct FileNames<'a> {
    /// The deck.
    pub deck: &'a str,
    /// The script, where one is named.
    pub script: Option<&'a str>,
}

/// Whether each word behind this one is a name.
fn is_dashes(word: &str) -> bool
    ensures { result ≡ is_dashes word.now }
{
    word == "--"
}

/// Whether a word is a name: it does not begin with `-`, or is `-` alone.
fn is_name(word: &str) -> bool
    ensures { result ≡ is_name word.now }
{
    !word.as_bytes().starts_with(b"-") || word == "-"
}

/// The names among the words: those before the first `--`, and those behind it. None where a word
/// before it is no name.
#[tactic(auto, unfolding(crate::specs::Words::names_in))]
fn names(words: &[String]) -> Option<(&[String], &[String])>
    ensures { names_in (map string_bytes words.now)
        ≡ option_map (λ names. map string_bytes (names.0.now ++ names.1.now)) result }
{
    for place in 0..words.len() {
        let word = words[place].as_str();
        if is_dashes(word) {
            return Some((&words[..place], &words[place + 1..]));
        }
        if !is_name(word) {
            return None;
        }
    }
    Some((words, &[]))
}

/// The name at a place among those before the first `--` and those behind it.
fn name_at<'a>(front: &'a [String], back: &'a [String], place: usize) -> &'a str
    requires { place < length (front.now ++ back.now) }
    ensures { slice_get (map string_bytes (front.now ++ back.now)) place ≡ Some result.now }
{
    if place < front.len() {
        front[place].as_str()
    } else {
        back[place - front.len()].as_str()
    }
}

/// The files that the words name: a deck, or a deck and a script. None where the words do not fit.
pub fn files(words: &[String]) -> Option<FileNames<'_>>
    ensures { option_map names_of result ≡ files (map string_bytes words.now) }
{
    let (front, back) = names(words)?;
    match front.len() + back.len() {
        1 => Some(FileNames {
            deck: name_at(front, back, 0),
            script: None,
        }),
        2 => Some(FileNames {
            deck: name_at(front, back, 0),
            script: Some(name_at(front, back, 1)),
        }),
        _ => None,
    }
}
