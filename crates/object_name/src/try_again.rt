//! Calls that are tried again.

/// Answers from the function what the first of `$retries` + 1 calls answers that doesn't fail: where `$call` answers
/// `Trouble::Failed`, it is made again, `$retries` times at most. `$tried` is how often it was made before.
#[macro_export]
macro_rules! try_again {
    ($tried:ident in $retries:expr, $call:expr) => {{
        for $tried in 0..$retries {
            match $call {
                Err($crate::Trouble::Failed) => {}
                answer => return answer,
            }
        }
        $call
    }};
}
