//! Files that were named, and the configurations in them.

ghost use Rattle.std.specs.Prelude.{◌≡◌, ◌⊎◌, ◌↔◌, IfOk, IfErr, IsTrue};
ghost use Rattle.ospf_config.specs.declared.fault.ConfigFault.TheVariants.{Memory};
ghost use Rattle.ospf_files.specs.Files.{IsConfigIn, IsRead, IsRefusedFor, text_in};

use ospf_config::{Config, ConfigFault};
use std::alloc::Global;

/// A file that was named.
#[derive(Debug, Drop)]
pub struct NamedFile {
    pub name: String,
    /// What it holds, where it could be read.
    pub bytes: Option<Vec<u8>>,
}

impl NamedFile {
    /// Whether it could be read.
    pub fn is_read(&self) -> bool
        ensures { IsTrue result ↔ IsRead self.now }
    {
        self.bytes.is_some()
    }

    /// What it holds; nothing where it could not be read.
    pub fn text(&self) -> &[u8]
        ensures { result.now ≡ text_in self.now }
    {
        match &self.bytes {
            Some(bytes) => bytes,
            None => &[],
        }
    }
}

/// The configuration that bytes are.
///
/// The error is `NotToml` where they are not UTF-8, else the fault of least number that the text
/// has, or `Memory` where memory ran out.
pub fn config_in(alloc: Global, bytes: &[u8]) -> Result<Config, ConfigFault>
    ensures ok { IfOk result (IsConfigIn bytes.now) }
    ensures fault { IfErr result (λ f. (f ≡ Memory) ⊎ IsRefusedFor bytes.now f) }
{
    match str::from_utf8(bytes) {
        Ok(text) => Config::from_text(alloc, text),
        Err(_) => Err(ConfigFault::NotToml),
    }
}
