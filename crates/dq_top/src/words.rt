ghost use Rattle.std.specs.Prelude.{◌≡◌, option_map};
ghost use Rattle.dq_top.specs.Checking.{check_names};
ghost use Rattle.dq_top.specs.Words.{is_name, script_name};

use dq_base::Text;

/// The script's name, where the words are `rehearse` and one name that isn't empty and doesn't begin with a dash.
pub fn find_script(words: &[Text]) -> Option<&Text>
    ensures { option_map (λ n. n.now) result ≡ script_name words.now }
{
    match words {
        [word, name] => {
            if word.bytes() == b"rehearse".as_slice() {
                if let [first, ..] = name.bytes() {
                    if *first != b'-' {
                        return Some(name);
                    }
                }
            }
            None
        }
        _ => None,
    }
}

/// The script's name and the report's, where the words are `check` and two names that aren't empty and don't begin with a dash.
pub fn find_names(words: &[Text]) -> Option<(&Text, &Text)>
    ensures { option_map (λ n. record { script = n.0.now; report = n.1.now }) result ≡ check_names words.now }
{
    match words {
        [word, script, report] => {
            if word.bytes() == b"check".as_slice() {
                if is_name(script.bytes()) && is_name(report.bytes()) {
                    return Some((script, report));
                }
            }
            None
        }
        _ => None,
    }
}

/// Whether a word can be a file's name: it isn't empty and doesn't begin with a dash.
fn is_name(word: &[u8]) -> bool
    ensures { result ≡ is_name word.now }
{
    match word {
        [first, ..] => *first != b'-',
        [] => false,
    }
}
