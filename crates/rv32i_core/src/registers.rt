//! The registers of one processor.
ghost use Rattle.std.specs.Prelude.{◌≡◌, ◌<◌};

/// The state of one processor: `pc`, the address of the instruction that comes next, and the
/// registers x0 to x31 ("Programmers' Model for Base Integer ISA", 2.1).
///
/// Instructions read 0 from x0, whatever stands in `x[0]`, and never write it.
#[derive(Clone, Copy, Debug, PartialEq, Eq)]
pub struct Cpu {
    pub pc: u32,
    pub x: [u32; 32],
}

/// The register in which a thread finds its argument, and a call of the environment leaves its result.
const RESULT: u8 = 10;

impl Cpu {
    ghost use Rattle.rv32i_core.specs.Registers.{answered, begun, following, register_of, with_register};

    /// A processor that begins at this address with the argument in x10. All other registers are 0.
    pub fn begin(entry: u32, argument: u32) -> Cpu
        ensures { result ≡ begun entry argument }
    {
        let mut cpu = Cpu {
            pc: entry,
            x: [0; 32],
        };
        cpu.write(RESULT, argument);
        cpu
    }

    /// Gives a call of the environment its result, in x10, and goes on to the instruction that follows.
    pub fn answer(&mut self, number: u32)
        ensures { self.new ≡ answered number self.old }
    {
        let next = self.following();
        self.write(RESULT, number);
        self.pc = next;
    }

    pub(crate) fn read(&self, register: u8) -> u32
        requires { register < 32 }
        ensures { result ≡ register_of register self.now }
    {
        if register == 0 {
            0
        } else {
            self.x[register as usize]
        }
    }

    pub(crate) fn write(&mut self, register: u8, value: u32)
        requires { register < 32 }
        ensures { self.new ≡ with_register register value self.old }
    {
        if register != 0 {
            self.x[register as usize] = value;
        }
    }

    /// The address of the instruction that follows in memory.
    pub(crate) fn following(&self) -> u32
        ensures { result ≡ following self.now }
    {
        self.pc.wrapping_add(4)
    }
}
