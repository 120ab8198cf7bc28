//! How far strings and comments go.
ghost use Rattle.std.specs.Prelude.{◌≡◌, ◌≤◌, ◌<◌, ◌+◌, length, IfSome};
ghost use Rattle.lf_templates.specs.reading.Templates as reading;

use crate::bytes::starts_with;
use lf_base::bytes::after;

/// How many bytes stand before the first `*/`, where one does.
pub fn comment_len(rest: &[u8]) -> Option<usize>
    ensures value { result ≡ reading.comment_len rest.now }
    ensures within { IfSome result (λ n. n + 2 ≤ length rest.now) }
{
    for i in 0..rest.len() {
        if starts_with(b'*', b'/', after(rest, i)) {
            return Some(i);
        }
    }
    None
}
