ghost use Rattle.std.specs.Prelude.{◌≡◌, ◌<◌, ◌*◌, ◌^◌, ◌≤◌, length, sum};
ghost use Rattle.event_codec.specs.Spelling.{IsLong, IsCounted, AreFit};
ghost use Rattle.event_text.specs.Lines.{number_in_all, sum_of_all};

use estate::Sizes;

/// How many sizes there are in all lists.
pub fn number_in_all(lists: &[Sizes]) -> u128
    requires { AreFit (AreFit IsLong) lists.now }
    ensures { result ≡ number_in_all lists.now }
{
    let mut number = 0;
    for sizes in lists {
        number += sizes.as_slice().len() as u128;
    }
    number
}

/// What the sizes of all lists add up to.
pub fn sum_of_all(lists: &[Sizes]) -> u128
    requires { AreFit (AreFit IsLong) lists.now }
    ensures { result ≡ sum_of_all lists.now }
{
    let mut total = 0;
    for sizes in lists {
        total += sum_of(sizes.as_slice());
    }
    total
}

fn sum_of(sizes: &[u64]) -> u128
    requires { AreFit IsLong sizes.now }
    ensures sum { result ≡ sum sizes.now }
    ensures bound { result ≤ 2 ^ 32 * 2 ^ 64 }
{
    let mut total = 0;
    for size in sizes {
        total += u128::from(*size);
    }
    total
}
