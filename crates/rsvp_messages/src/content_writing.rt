ghost use Rattle.std.specs.Prelude.{◌≡◌, ◌≤◌, ◌+◌, ◌++◌, OnOk, OnErr, All, take, length};
ghost use Rattle.rsvp_contents.specs.Written.{body_of, message_bytes, objects_of, type_of};
ghost use Rattle.rsvp_messages.specs.Headers.{bare_header};
ghost use Rattle.rsvp_messages.specs.Parts.{IsSpelled};

use crate::header_writing::{put_header, seal};
use crate::objects_writing::*;
use rsvp_contents::Content;
use rsvp_contents::numbers::*;
use std::alloc::AllocError;

/// Appends the message without its length and its checksum. Where there is no memory for it, a part of it
/// may stand after what was there.
pub(crate) fn put_content(content: &Content, out: &mut Vec<u8>) -> Result<(), AllocError>
    ensures ok { OnOk result (out.new.items ≡ out.old.items ++ (bare_header (type_of content.now) ++ body_of content.now)) }
    ensures spelled { OnOk result (All IsSpelled (objects_of content.now)) }
    ensures err { OnErr result (take (length out.old.items) out.new.items ≡ out.old.items) }
{
    match content {
        Content::Path(path) => {
            put_header(TYPE_PATH, out)?;
            put_path(path, out)
        }
        Content::PathErr(error) => {
            put_header(TYPE_PATH_ERR, out)?;
            put_path_err(error, out)
        }
        Content::PathTear(tear) => {
            put_header(TYPE_PATH_TEAR, out)?;
            put_path_tear(tear, out)
        }
        Content::Resv(resv) => {
            put_header(TYPE_RESV, out)?;
            put_resv(resv, out)
        }
        Content::ResvErr(error) => {
            put_header(TYPE_RESV_ERR, out)?;
            put_resv_err(error, out)
        }
        Content::ResvTear(tear) => {
            put_header(TYPE_RESV_TEAR, out)?;
            put_resv_tear(tear, out)
        }
    }
}

/// Appends the message that says this. The only error is out of memory, which leaves `out` as it was.
pub(crate) fn write_content(content: &Content, out: &mut Vec<u8>) -> Result<(), AllocError>
    requires { 8 + length (body_of content.now) ≤ 4096 }
    ensures ok { OnOk result (out.new.items ≡ out.old.items ++ message_bytes content.now) }
    ensures spelled { OnOk result (All IsSpelled (objects_of content.now)) }
    ensures err { OnErr result (out.new.items ≡ out.old.items) }
{
    let start = out.len();
    if let Err(error) = put_content(content, out) {
        out.truncate(start);
        return Err(error);
    }
    seal(&mut out[start..]);
    Ok(())
}
