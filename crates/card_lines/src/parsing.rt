// Numbers and facts at the front of a text, each with what follows it.
use card_records::Fact;

// The number at the front; no leading zero.
pub fn number(text: &[u8]) -> Option<(u32, &[u8])> {
    let digits = text.iter().take_while(|b| b.is_ascii_digit()).count();
    let (front, rest) = text.split_at(digits);
    if let [b'0', _, ..] = front {
        return None;
    }
    let number = str::from_utf8(front).ok()?.parse().ok()?;
    Some((number, rest))
}

// A value: a space and a number.
fn value(text: &[u8]) -> Option<(u32, &[u8])> {
    let [b' ', rest @ ..] = text else {
        return None;
    };
    number(rest)
}

// The fact at the front, with its values up to the third. It is the last of its moment where the line ends with it; else a comma, a space and
// something more follow.
pub fn fact(text: &[u8], stamp: u32) -> Option<(Fact, &[u8])> {
    let (predicate, mut rest) = number(text)?;
    let mut values = [0; 3];
    let mut count = 0;
    for place in values.iter_mut() {
        let Some((y, next)) = value(rest) else {
            break;
        };
        *place = y;
        count += 1;
        rest = next;
    }
    let (last, rest) = match rest {
        [] => (true, rest),
        [b',', b' ', _, ..] => (false, &rest[2..]),
        _ => return None,
    };
    Some((
        Fact {
            stamp,
            predicate,
            count,
            values,
            last,
        },
        rest,
    ))
}
