//! Why a file isn't read and an output isn't written, for reasons that no run can make the system give.

use std::io::ErrorKind;
use std::test::Fail;
use uv_messages::unread::{unread, unwritten};

// Kinds of errors, and the messages on a file that gives them.
const UNREAD: [(ErrorKind, &str); 3] = [
    (
        ErrorKind::ResourceBusy,
        "urlcheck: a: can't be read: it is in use\n",
    ),
    (
        ErrorKind::TimedOut,
        "urlcheck: a: can't be read: the system took too long\n",
    ),
    (
        ErrorKind::StaleNetworkFileHandle,
        "urlcheck: a: can't be read: it is no longer on its server\n",
    ),
];

#[test]
fn says_why_a_file_is_not_read(rt: HostRuntime) -> Result<(), Fail> {
    for (kind, said) in &UNREAD {
        let message = unread(rt.alloc(), "a", Some(*kind))?;
        assert!(rt; message.as_str() == *said);
    }
    Ok(())
}

#[test]
fn says_that_a_quota_is_used_up(rt: HostRuntime) -> Result<(), Fail> {
    let message = unwritten(rt.alloc(), Some(ErrorKind::QuotaExceeded))?;
    assert!(rt;
        message.as_str() == "urlcheck: standard output: can't be written: the quota is used up\n"
    );
    Ok(())
}
