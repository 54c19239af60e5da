//! Packet buffers that aren't in use.
use siit_views::PacketBuf;
use siit_word::NoMemory;
use std::alloc::Global;

#[derive(Drop)]
pub(crate) struct Spares {
    alloc: Global,
    bufs: Vec<PacketBuf>,
}

impl Spares {
    /// One buffer, which is taken now.
    pub fn new(alloc: Global) -> Result<Spares, NoMemory> {
        let mut spares = Spares {
            alloc,
            bufs: Vec::new(alloc),
        };
        let spare = PacketBuf::new(alloc)?;
        spares.keep(spare);
        Ok(spares)
    }

    /// A buffer that was kept, or a new one.
    pub fn take(&mut self) -> Result<PacketBuf, NoMemory> {
        match self.bufs.pop() {
            Some(buf) => Ok(buf),
            None => PacketBuf::new(self.alloc),
        }
    }

    /// Keeps a buffer for later. Where there is no memory to keep it in, it is given up.
    pub fn keep(&mut self, buf: PacketBuf) {
        let _ = self.bufs.push(buf);
    }
}
