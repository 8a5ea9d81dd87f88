// Numbers in decimal.

ghost use Rattle.std.specs.Prelude.{◌≡◌, ◌≤◌, IfSome, Some, None};
ghost use Rattle.sj_main.specs.definitions.Commands.{number_from};

/// The number that the digits are, where it is within the limit.
pub fn number_in(limit: u64, digits: &[u8]) -> Option<u64>
    requires { limit ≤ 4294967295 }
    ensures value { result ≡ number_from limit 0 digits.now }
    ensures within { IfSome result (λ n. n ≤ limit) }
{
    let mut number = 0;
    let mut rest = digits;
    while let [first, after @ ..] = rest {
        if *first < b'0' || *first > b'9' {
            return None;
        }
        let next = number * 10 + (*first - b'0') as u64;
        if next > limit {
            return None;
        }
        number = next;
        rest = after;
    }
    Some(number)
}
