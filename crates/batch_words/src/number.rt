ghost use Rattle.std.specs.Prelude.{◌≡◌, IsTrue};
ghost use Rattle.std.specs.Char.{is_ascii_digit};
ghost use Rattle.std.specs.List.{list_all};
ghost use Rattle.std.specs.Str.Parse.{digits_value};
ghost use Rattle.batch_words.specs.Words.{is_numeral, number_in};

/// The number that the text writes, by 1 to 9 ASCII digits, if it is in this range.
pub fn read_number(text: &str, least: u32, greatest: u32) -> Option<u32>
    ensures { result ≡ number_in least greatest text.now }
{
    if !is_numeral(text) {
        return None;
    }
    let number = value_of(text);
    if least <= number && number <= greatest {
        Some(number)
    } else {
        None
    }
}

fn is_numeral(text: &str) -> bool
    ensures { result ≡ is_numeral text.now }
{
    !text.is_empty() && text.len() <= 9 && has_only_digits(text)
}

fn has_only_digits(text: &str) -> bool
    ensures { result ≡ list_all is_ascii_digit text.now }
{
    text.bytes().all(|byte| byte.is_ascii_digit())
}

fn value_of(text: &str) -> u32
    requires { IsTrue (is_numeral text.now) }
    ensures { result ≡ digits_value 10 text.now }
{
    text.parse::<u32>().unwrap()
}
