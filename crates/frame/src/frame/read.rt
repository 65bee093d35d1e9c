// Reading a frame, and unpacking it into a host's buffer.
ghost use Rattle.std.specs.Prelude.{◌≡◌, length};
ghost use Rattle.frame.specs.Frame.{IsFrame};
ghost use Rattle.frame.specs.Reading.{reading, Says};
ghost use Rattle.frame.specs.Unpacking.{copying, copied_into, unpacking, unpacked_into};

use crate::frame::{Frame, Kind};
use crate::room::clear_reserved;
use terms::content::Content;
use terms::fault::{FrameFault, HostFault, UnpackFault};

impl Frame {
    // What the frame holds, or why it is not good. Only the two forms with right checks are ever good.
    pub fn read(&self) -> Result<Content, FrameFault>
        ensures answer { result ≡ reading self.now }
        ensures says { Says self.now result }
        ensures shape { IsFrame self.now }
    {
        self.check_sync()?;
        // A match, as in `Kind::allows`: the kind is known only once a frame is there.
        match self.kind() {
            Kind::Protocol => self.read_protocol(),
            Kind::Link => self.read_link(),
        }
    }

    // Copies out the frame's bytes with the reserved places zero, good or not; a shorter buffer is left as it is.
    pub fn copy_packet(&self, buffer: &mut [u8]) -> Result<usize, HostFault>
        ensures answer { result ≡ copying self.now (length buffer.old) }
        ensures after { buffer.new ≡ copied_into self.now buffer.old }
        ensures shape { IsFrame self.now }
    {
        let bytes = self.bytes();
        let size = bytes.len();
        if buffer.len() < size {
            return Err(HostFault { needed: size });
        }
        let packet = &mut buffer[..size];
        packet.copy_from_slice(bytes);
        clear_reserved(packet);
        Ok(size)
    }

    // Reads the frame, and copies a good packet into the buffer; a reply leaves the buffer as it is, and so does a refusal.
    pub fn unpack(&self, buffer: &mut [u8]) -> Result<Content, UnpackFault>
        ensures answer { result ≡ unpacking self.now (length buffer.old) }
        ensures after { buffer.new ≡ unpacked_into self.now buffer.old }
        ensures shape { IsFrame self.now }
    {
        let content = self.read()?;
        if let Content::Packet { .. } = content {
            self.copy_packet(buffer)?;
        }
        Ok(content)
    }
}
