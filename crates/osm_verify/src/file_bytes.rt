//! A file whose bytes can be read at any offset.

ghost use Rattle.std.specs.Prelude.{◌≡◌, IfOk, IfSome, Some, length};
ghost use Rattle.osm_reading.specs.Framings.{Known};
ghost use Rattle.osm_verify.specs.InFile.{Fills};

use osm_import::SourceFailed;

/// What reads a file at any offset. The file stays as it is.
pub trait FileBytes {
    /// The bytes of the file, where they are known.
    ghost bytes: { Self → Known };

    /// How many bytes the file has. An error where that can't be told, as of a pipe.
    fn size(&mut self) -> Result<u64, SourceFailed>
        ensures told { IfSome (bytes self.old) (λ file. IfOk result (λ size. size ≡ length file)) }
        ensures kept { bytes self.new ≡ bytes self.old };

    /// Fills a buffer with the bytes from an offset on, and answers whether the file has so many. An error where a read
    /// has failed.
    fn read_at(&mut self, off: u64, buffer: &mut [u8]) -> Result<bool, SourceFailed>
        ensures filled { IfOk result (λ whole. Fills (bytes self.old) off whole buffer.new) }
        ensures long { length buffer.new ≡ length buffer.old }
        ensures kept { bytes self.new ≡ bytes self.old };
}

/// A file that is in memory.
#[derive(Debug, Drop)]
pub struct MemoryFile<'a> {
    pub bytes: &'a [u8],
}

impl FileBytes for MemoryFile<'_> {
    ghost bytes = { λ file. Some file.bytes.now };

    fn size(&mut self) -> Result<u64, SourceFailed> {
        Ok(self.bytes.len() as u64)
    }

    fn read_at(&mut self, off: u64, buffer: &mut [u8]) -> Result<bool, SourceFailed> {
        let size = self.bytes.len() as u64;
        if off > size || size - off < buffer.len() as u64 {
            return Ok(false);
        }
        let from = off as usize;
        let to = from + buffer.len();
        buffer.copy_from_slice(&self.bytes[from..to]);
        Ok(true)
    }
}
