//! What a page asks: a byte string with numbers of four bytes, least first, and fields, each after its length.

ghost use Rattle.std.specs.Prelude.{◌≡◌, ◌++◌, ◌<◌, ◌^◌, IsTrue, IfOk, IfErr, IfSome, None, length, string_bytes};
ghost use Rattle.std.specs.Int.{to_le_bytes, w32};
ghost use Rattle.io_edges.specs.Files.{names_differ};
ghost use Rattle.io_edges.specs.NamedFile.{entries};
ghost use Rattle.std.specs.Str.{IsUtf8};
ghost use Rattle.page.specs.declared.request.NoRequest.TheVariants.{Memory};
ghost use Rattle.command_line.specs.View.{texts};
ghost use Rattle.page.specs.Answer.{field};
ghost use Rattle.page.specs.Request.{counted, counted_files, request_bytes, AllOf, IsNamed, Any, HasNo, IsNoRequest};

use io_edges::memory_files::{NamedFile, have_different_names};
use std::alloc::{AllocError, Global};

/// A command with all that it works on.
#[derive(Drop)]
pub struct Request {
    pub words: Vec<String>,
    pub files: Vec<NamedFile>,
    pub input: Vec<u8>,

    /// The name of the file that the answer is to hold.
    pub wanted: String,
}

/// Why no request was read.
#[derive(Clone, Copy, Debug, PartialEq, Eq)]
pub enum NoRequest {
    /// The bytes have another form.
    Form,

    /// There was no memory for it.
    Memory,
}

impl From<AllocError> for NoRequest {
    ghost from_gives = { λ _ e. e ≡ Memory };

    fn from(_: AllocError) -> NoRequest {
        NoRequest::Memory
    }
}

// The number at the front of some bytes, and the bytes after it.
fn number_in(bytes: &[u8]) -> Option<(u32, &[u8])>
    ensures found { IfSome result (λ it. bytes.now ≡ to_le_bytes w32 it.0 ++ it.1.now) }
    ensures none { result ≡ None → length bytes.now < 4 }
{
    let Some((number, rest)) = bytes.split_first_chunk::<4>() else {
        return None;
    };
    Some((u32::from_le_bytes(*number), rest))
}

// The bytes that are not read yet.
#[derive(Drop)]
struct Rest<'a> {
    bytes: &'a [u8],
}

impl<'a> Rest<'a> {
    fn number(&mut self) -> Result<usize, NoRequest>
        ensures found { IfOk result (λ n. self.old.bytes.now ≡ to_le_bytes w32 n ++ self.new.bytes.now) }
        ensures small { IfOk result (λ n. n < 2 ^ 32) }
        ensures form { IfErr result (λ e. e ≡ NoRequest.Form → HasNo (to_le_bytes w32) Any self.old.bytes.now) }
    {
        let Some((number, rest)) = number_in(self.bytes) else {
            return Err(NoRequest::Form);
        };
        self.bytes = rest;
        Ok(number as usize)
    }

    fn field(&mut self) -> Result<&'a [u8], NoRequest>
        ensures found { IfOk result (λ bytes. self.old.bytes.now ≡ field bytes.now ++ self.new.bytes.now) }
        ensures form { IfErr result (λ e. e ≡ NoRequest.Form → HasNo field Any self.old.bytes.now) }
    {
        let length = self.number()?;
        let Some((field, rest)) = self.bytes.split_at_checked(length) else {
            return Err(NoRequest::Form);
        };
        self.bytes = rest;
        Ok(field)
    }

    fn text(&mut self, alloc: Global) -> Result<String, NoRequest>
        ensures found { IfOk result (λ text. self.old.bytes.now ≡ field (string_bytes text) ++ self.new.bytes.now) }
        ensures form { IfErr result (λ e. e ≡ NoRequest.Form → HasNo field IsUtf8 self.old.bytes.now) }
    {
        let bytes = Vec::from_slice(alloc, self.field()?)?;
        match String::from_utf8(bytes) {
            Ok(text) => Ok(text),
            Err(_) => Err(NoRequest::Form),
        }
    }

    fn words(&mut self, alloc: Global) -> Result<Vec<String>, NoRequest>
        ensures found { IfOk result (λ words. self.old.bytes.now ≡ counted (texts words.items) ++ self.new.bytes.now) }
        ensures form { IfErr result (λ e. e ≡ NoRequest.Form → HasNo counted (AllOf IsUtf8) self.old.bytes.now) }
    {
        let count = self.number()?;
        let mut words = Vec::new(alloc);
        while words.len() < count {
            let word = self.text(alloc)?;
            if words.push(word).is_err() {
                return Err(NoRequest::Memory);
            }
        }
        Ok(words)
    }

    fn files(&mut self, alloc: Global) -> Result<Vec<NamedFile>, NoRequest>
        ensures found { IfOk result (λ files. self.old.bytes.now ≡ counted_files (entries files.items) ++ self.new.bytes.now) }
        ensures form { IfErr result (λ e. e ≡ NoRequest.Form → HasNo counted_files (AllOf IsNamed) self.old.bytes.now) }
    {
        let count = self.number()?;
        let mut files = Vec::new(alloc);
        while files.len() < count {
            let name = self.text(alloc)?;
            let bytes = Vec::from_slice(alloc, self.field()?)?;
            if files.push(NamedFile { name, bytes }).is_err() {
                return Err(NoRequest::Memory);
            }
        }
        Ok(files)
    }
}

/// Reads a request: the number of words and each word, the number of files and of each its name and its bytes, the input, and the name of
/// the file that is wanted.
pub fn read_request(alloc: Global, bytes: &[u8]) -> Result<Request, NoRequest>
    ensures different { IfOk result (λ request. IsTrue (names_differ (entries request.files.items))) }
    ensures read { IfOk result (λ request. request_bytes (texts request.words.items) (entries request.files.items)
        request.input.items (string_bytes request.wanted) ≡ bytes.now) }
    ensures form { IfErr result (λ e. e ≡ NoRequest.Form → IsNoRequest bytes.now) }
{
    let mut rest = Rest { bytes };
    let words = rest.words(alloc)?;
    let files = rest.files(alloc)?;
    let input = Vec::from_slice(alloc, rest.field()?)?;
    let wanted = rest.text(alloc)?;
    if !rest.bytes.is_empty() || !have_different_names(&files) {
        return Err(NoRequest::Form);
    }
    Ok(Request {
        words,
        files,
        input,
        wanted,
    })
}
