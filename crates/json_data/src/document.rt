ghost use Rattle.std.specs.Prelude.{◌≡◌, Some, None, Err, IfOk, IsUtf8};
ghost use Rattle.serde_json.specs.Read.{read as data_in};

use crate::build::read;
use crate::element::Element;
use crate::fault::DataFault;
use crate::kept::kept_spots;
use crate::plain_value::read_plain;
use crate::spot::Spot;
use crate::texts::Texts;
use json::{Reader, Scratch};
use std::alloc::Global;

/// How deep arrays and objects may nest.
const MOST_DEPTH: usize = 127;

/// One value of a text, with all in it.
#[derive(Drop)]
pub struct Document<'a> {
    texts: Texts<'a>,
    nodes: Vec<Spot>,
}

impl<'a> Document<'a> {
    ghost use Rattle.json_data.specs.View.{data_of, view};

    /// Reads the one value that the bytes are. The scratch takes the texts that aren't as they stand in
    /// the bytes, where there are any.
    ///
    /// # Errors
    ///
    /// [`DataFault::NotJson`] where the bytes aren't UTF-8 or aren't one JSON value,
    /// [`DataFault::Memory`] where memory runs out.
    pub fn read(
        alloc: Global,
        bytes: &'a [u8],
        scratch: &'a mut Scratch,
    ) -> Result<Document<'a>, DataFault>
        ensures ok { IfOk result (λ d. IsUtf8 bytes.now × (data_in bytes.now ≡ Some (data_of d))) }
        ensures err { result ≡ Err DataFault.NotJson → IsUtf8 bytes.now
            → data_in bytes.now ≡ None }
    {
        match simdutf8::compat::from_utf8(bytes) {
            Ok(text) => Document::read_str(alloc, text, scratch),
            Err(_) => Err(DataFault::NotJson),
        }
    }

    /// A plain text is read where it stands, and takes no scratch.
    fn read_str(
        alloc: Global,
        text: &'a str,
        scratch: &'a mut Scratch,
    ) -> Result<Document<'a>, DataFault>
        ensures ok { IfOk result (λ d. data_in text.now ≡ Some (data_of d)) }
        ensures err { result ≡ Err DataFault.NotJson → data_in text.now ≡ None }
    {
        match read_plain(alloc, text) {
            Ok(nodes) => Ok(Document {
                texts: Texts {
                    text,
                    kept: Vec::new(alloc),
                },
                nodes,
            }),
            Err(_) => Document::read_text(alloc, text, scratch),
        }
    }

    fn read_text(
        alloc: Global,
        text: &'a str,
        scratch: &'a mut Scratch,
    ) -> Result<Document<'a>, DataFault>
        ensures ok { IfOk result (λ d. data_in text.now ≡ Some (data_of d)) }
        ensures err { result ≡ Err DataFault.NotJson → data_in text.now ≡ None }
    {
        let mut reader = Reader::new(text, scratch)?;
        let mut kept = Vec::new(alloc);
        read(&mut reader, MOST_DEPTH, &mut kept)?;
        if reader.next().is_some() {
            return Err(DataFault::NotJson);
        }
        let nodes = kept_spots(alloc, &kept)?;
        Ok(Document {
            texts: Texts { text, kept },
            nodes,
        })
    }

    /// The value itself.
    pub fn root(&self) -> Element<'_, 'a>
        ensures { view result ≡ data_of self.now }
    {
        Element::first(&self.texts, self.nodes.as_slice())
    }
}
