//! The names of labels and metrics, as Prometheus' documentation on its data model has them, and the bytes that they are made of. Letters and digits are those of ASCII.
ghost use Rattle.std.specs.Prelude.{◌≡◌, ◌<◌, IfSome};
ghost use Rattle.std.specs.List.{list_all};
ghost use Rattle.std.specs.Str.{bytes_eq};
ghost use Rattle.lf_base.specs.Names as names;

/// Whether a byte is a digit, `0` to `9`.
#[tactic(auto, unfolding(crate::specs::Names::is_digit))]
pub fn is_digit(byte: u8) -> bool
    ensures { result ≡ names.is_digit byte }
{
    48 <= byte && byte <= 57
}

/// Whether a byte is a letter, `A` to `Z` or `a` to `z`.
#[tactic(auto, unfolding(crate::specs::Names::is_letter))]
pub fn is_letter(byte: u8) -> bool
    ensures { result ≡ names.is_letter byte }
{
    (65 <= byte && byte <= 90) || (97 <= byte && byte <= 122)
}

/// Whether a byte is a digit of a hexadecimal number, `0` to `9`, `A` to `F` or `a` to `f`.
#[tactic(auto, unfolding(crate::specs::Names::is_hexadecimal))]
pub fn is_hexadecimal(byte: u8) -> bool
    ensures { result ≡ names.is_hexadecimal byte }
{
    is_digit(byte) || (65 <= byte && byte <= 70) || (97 <= byte && byte <= 102)
}

/// What a digit of a hexadecimal number is worth, none of another byte.
#[tactic(auto, unfolding(crate::specs::Names::hexadecimal_value))]
pub fn hexadecimal_value(byte: u8) -> Option<u8>
    ensures value { result ≡ names.hexadecimal_value byte }
    ensures small { IfSome result (λ n. n < 16) }
{
    match byte {
        b'0'..=b'9' => Some(byte - 48),
        b'A'..=b'F' => Some(byte - 55),
        b'a'..=b'f' => Some(byte - 87),
        _ => None,
    }
}

/// Whether a label name may begin with the byte: a letter or `_`.
#[tactic(auto, unfolding(crate::specs::Names::begins_label))]
pub fn begins_label(byte: u8) -> bool
    ensures { result ≡ names.begins_label byte }
{
    is_letter(byte) || byte == b'_'
}

/// Whether a metric name may begin with the byte: a letter, `_` or `:`.
#[tactic(auto, unfolding(crate::specs::Names::begins_metric))]
pub fn begins_metric(byte: u8) -> bool
    ensures { result ≡ names.begins_metric byte }
{
    begins_label(byte) || byte == b':'
}

/// Whether a label name may go on with the byte: a letter, `_` or a digit.
#[tactic(auto, unfolding(crate::specs::Names::is_in_label))]
pub fn is_in_label(byte: u8) -> bool
    ensures { result ≡ names.is_in_label byte }
{
    begins_label(byte) || is_digit(byte)
}

/// Whether a metric name may go on with the byte: a letter, `_`, `:` or a digit.
#[tactic(auto, unfolding(crate::specs::Names::is_in_metric))]
pub fn is_in_metric(byte: u8) -> bool
    ensures { result ≡ names.is_in_metric byte }
{
    begins_metric(byte) || is_digit(byte)
}

/// Whether a text is a label name, `[a-zA-Z_][a-zA-Z0-9_]*`.
#[tactic(auto, unfolding(crate::specs::Names::is_label_name))]
pub fn is_label_name(text: &[u8]) -> bool
    ensures { result ≡ names.is_label_name text.now }
{
    match text {
        [] => false,
        [first, rest @ ..] => begins_label(*first) && are_in_label(rest),
    }
}

/// Whether a text is a metric name, `[a-zA-Z_:][a-zA-Z0-9_:]*`.
#[tactic(auto, unfolding(crate::specs::Names::is_metric_name))]
pub fn is_metric_name(text: &[u8]) -> bool
    ensures { result ≡ names.is_metric_name text.now }
{
    match text {
        [] => false,
        [first, rest @ ..] => begins_metric(*first) && are_in_metric(rest),
    }
}

fn are_in_label(bytes: &[u8]) -> bool
    ensures { result ≡ list_all names.is_in_label bytes.now }
{
    bytes.iter().all(|byte| is_in_label(*byte))
}

fn are_in_metric(bytes: &[u8]) -> bool
    ensures { result ≡ list_all names.is_in_metric bytes.now }
{
    bytes.iter().all(|byte| is_in_metric(*byte))
}

/// Whether each byte is a digit.
pub fn are_digits(bytes: &[u8]) -> bool
    ensures { result ≡ list_all names.is_digit bytes.now }
{
    bytes.iter().all(|byte| is_digit(*byte))
}

/// Whether a label is the one that holds the metric name, `__name__`.
pub fn is_metric(label: &[u8]) -> bool
    ensures { result ≡ bytes_eq label.now names.metric }
{
    label == b"__name__".as_slice()
}

/// Whether a word has a colon, so that it can only name a metric: label names have none.
pub fn has_colon(name: &str) -> bool
    ensures { result ≡ names.has_colon name.now }
{
    name.as_bytes().iter().any(|byte| *byte == b':')
}
