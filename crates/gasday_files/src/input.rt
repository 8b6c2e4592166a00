//! Where a text comes from: standard input, or files that were named.

ghost use Rattle.std.specs.Prelude.{◌≡◌, ◌≢◌, ℕ, List, [], ◌∷◌, None, map, IfOk, IfErr, IfSome};
ghost use Rattle.gasday_words.specs.Ordered.{requested, seen};
ghost use Rattle.gasday_files.specs.Texts.{Adds, BlamesFile, BlamesInput, IsMadeOf, IsTextOf, IsUnread, ReadsText, joined, standard_input};

use crate::file::is_database;
use crate::noted::Noted;
use crate::told::tell_waiting;
use gasday_words::{Order, Request};
use gd_messages::Part;
use gd_text_part::{MAX_BYTES, TextFault, read_bytes};
use std::alloc::AllocError;
use std::fs::File;
use std::io;
use std::io::Read;

/// What a command reads: the bytes of standard input, or those of files, one behind the other, each without a byte order mark and
/// ended by a line break.
#[derive(Drop)]
pub struct Text<'a> {
    pub bytes: Vec<u8>,
    /// The files, none of standard input.
    pub parts: Vec<Part<'a>>,
}

/// Why a text was not read.
#[derive(Drop)]
pub enum Unread<'a> {
    /// A file can't be read.
    File(&'a str, io::Error),
    /// What standard input has is no text, or a read failed with an error.
    Standard(TextFault, Option<io::Error>),
}

const BYTE_ORDER_MARK: &[u8] = b"\xef\xbb\xbf";

/// How many bytes are read more at the most: of one more than a text may have it is told that it is too long.
fn left(bytes: &[u8]) -> u64 {
    (MAX_BYTES as u64)
        .saturating_add(1)
        .saturating_sub(bytes.len() as u64)
}

/// The name by which standard input is one of the files.
const STANDARD_INPUT: &str = "-";

/// Reads what a file has, or standard input, and no more than a text may have behind so many bytes.
fn read_named(rt: &HostRuntime, name: &str, bytes: &[u8]) -> io::Result<Vec<u8>> {
    let mut file = Vec::new(rt.alloc());
    if name == STANDARD_INPUT {
        rt.reader().take(left(bytes)).read_to_end(&mut file)?;
    } else {
        File::open(rt, name)?
            .take(left(bytes))
            .read_to_end(&mut file)?;
    }
    Ok(file)
}

/// Puts the bytes of a file behind these, without a byte order mark, and a line break behind them if they end with none.
fn join(bytes: &mut Vec<u8>, file: &[u8]) -> Result<(), AllocError>
    ensures { IfOk result (λ done. bytes.new.items ≡ joined bytes.old.items file.now) }
{
    bytes.extend_from_slice(file.strip_prefix(BYTE_ORDER_MARK).unwrap_or(file))?;
    if !bytes.as_slice().ends_with(b"\n") {
        bytes.push(b'\n')?;
    }
    Ok(())
}

/// Puts what a file has behind the bytes.
fn append(rt: &HostRuntime, name: &str, bytes: &mut Vec<u8>) -> io::Result<()>
    ensures { IfOk result (λ done. (file : List ℕ) × (bytes.new.items ≡ joined bytes.old.items file)) }
{
    let file = read_named(rt, name, bytes.as_slice())?;
    join(bytes, file.as_slice())?;
    Ok(())
}

impl<'a> Text<'a> {
    /// A text of nothing.
    pub fn empty(rt: &HostRuntime) -> Text<'a>
        ensures bytes { result.bytes.items ≡ [] }
        ensures parts { result.parts.items ≡ [] }
    {
        Text {
            bytes: Vec::new(rt.alloc()),
            parts: Vec::new(rt.alloc()),
        }
    }

    /// Puts a file behind the others.
    fn add(&mut self, rt: &HostRuntime, name: &'a str) -> io::Result<()>
        ensures { IfOk result (λ done. Adds name.entry.now self.old self.new) }
    {
        let begin = self.bytes.len();
        self.parts.push(Part { name, begin })?;
        append(rt, name, &mut self.bytes)
    }

    /// What these files have, in order.
    ///
    /// # Errors
    ///
    /// `File` with the first one that can't be read.
    pub fn of_files(rt: &HostRuntime, names: &[&'a str]) -> Result<Text<'a>, Unread<'a>>
        ensures text { IfOk result (IsMadeOf (map (λ n. n.now) names.now)) }
        ensures unread { IfErr result (BlamesFile (map (λ n. n.now) names.now)) }
    {
        let mut text = Text::empty(rt);
        'names: for name in names {
            if let Err(error) = text.add(rt, *name) {
                return Err(Unread::File(*name, error));
            }
        }
        Ok(text)
    }

    /// All that standard input has.
    pub(crate) fn of_input<R: Read + Drop>(
        rt: &HostRuntime,
        input: R,
    ) -> Result<Text<'a>, Unread<'a>>
        ensures text { IfOk result (λ text. IfSome (R.remaining input) (λ all. text.bytes.items ≡ all)) }
        ensures parts { IfOk result (λ text. text.parts.items ≡ []) }
        ensures unread { IfErr result (BlamesInput (R.remaining input)) }
    {
        let mut reader = Noted::new(input);
        match read_bytes(rt.alloc(), &mut reader) {
            Ok(bytes) => Ok(Text {
                bytes,
                parts: Vec::new(rt.alloc()),
            }),
            Err(fault) => Err(Unread::Standard(fault, reader.take_error())),
        }
    }
}

/// The text of a file, or of standard input, whose name is `-`; `None` of a database.
///
/// # Errors
///
/// `File` where it can't be read.
pub fn named_by<'a>(rt: &HostRuntime, file: &'a str) -> Result<Option<Text<'a>>, Unread<'a>>
    ensures text { IfOk result (λ found. IfSome found (IsMadeOf (file.entry.now ∷ []))) }
    ensures database { IfOk result (λ found. found ≡ None → file.entry.now ≢ standard_input) }
    ensures unread { IfErr result (BlamesFile (file.entry.now ∷ [])) }
{
    if file != STANDARD_INPUT {
        match is_database(rt, file) {
            Ok(true) => return Ok(None),
            Ok(false) => {}
            Err(error) => return Err(Unread::File(file, error)),
        }
    }
    Ok(Some(Text::of_files(rt, &[file])?))
}

/// The text of a request, of standard input where it names no file. Who audits or migrates an archive reads none.
///
/// # Errors
///
/// `File` with the first file that can't be read; `Standard` where standard input gives no text: it is too long, memory ended, or a
/// read failed.
pub fn text_of<'a, R: Read + Drop>(
    rt: &HostRuntime,
    request: &Request<'a>,
    input: R,
) -> Result<Text<'a>, Unread<'a>>
    ensures text { IfOk result (IsTextOf (R.remaining input) (seen request.now.order) (requested request.now).texts) }
    ensures unread { IfErr result (λ why. ReadsText (seen request.now.order)
        × IsUnread (R.remaining input) (requested request.now).texts why) }
{
    match request.order {
        Order::Audit(_) | Order::AuditEach(_) | Order::Migrate(_) => Ok(Text::empty(rt)),
        _ if request.texts.is_empty() => {
            tell_waiting(rt);
            Text::of_input(rt, input)
        }
        _ => Text::of_files(rt, request.texts.as_slice()),
    }
}
