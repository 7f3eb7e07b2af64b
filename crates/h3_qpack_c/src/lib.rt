//! QPACK (RFC 9204) for programs in C, and in any language that calls C: the exports of `include/h3_qpack.h`, which
//! says what each requires of its caller. Each call borrows the handle of an end of a connection.
#![tactic(auto)]

ghost use Rattle.std.specs.Prelude.{◌≡◌};

mod answers;
mod decoder;
mod encoder;
mod fields;
mod reader;
mod stateless;
mod statuses;
mod tables;
mod views;

/// Returns the version of this interface, 0.2: 65,536 for each breaking change from 1.0 on, 1 for each addition.
#[unsafe(no_mangle)]
pub extern "C" fn h3q_version() -> u32
    ensures { result ≡ 2 }
{
    2
}
