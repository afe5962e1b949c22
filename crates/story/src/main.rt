// The story of one unit, told as a technician reads it: tables, a sensor's page, and three probes.
#![tactic(auto)]

use state::{Access, FaultPair, Outcome, Registers};
use std::{fmt, io};

const ROM: [u32; 4] = [0; 4];

// A unit, and the memory that it stands on.
#[derive(Drop)]
struct Machine {
    registers: Registers,
    pair: FaultPair,
    patc: [u32; 112],
    lines: [u32; 1280],
    cells: [u32; 4096],
    ram: [u32; 11264],
}

// How a read ended, and the words that it moved.
#[derive(Clone, Copy)]
struct Reading {
    outcome: Outcome,
    words: u32,
}

// What a probe left in SSR and SAR.
#[derive(Clone, Copy)]
struct Probed {
    ssr: u32,
    sar: u32,
}

impl Machine {
    // Unit 127 at reset: its lines are invalid, and nothing is written anywhere.
    fn new() -> Machine {
        Machine {
            registers: state::reset(127),
            pair: FaultPair::default(),
            patc: [0; 112],
            lines: [3; 1280],
            cells: [0; 4096],
            ram: [0; 11264],
        }
    }

    // A segment table at 4000 and a page table at 6000 that maps 00C05000 to the sensor's frame A000; a second table lies outside memory.
    fn write_tables(&mut self) {
        self.ram[4099] = 0x6001;
        self.ram[4100] = 0x7FFFF001;
        self.ram[6149] = 0xA001;
        self.ram[10313] = 42;
    }

    fn write_register(&mut self, offset: u32, value: u32) {
        control::write_register(
            &mut self.registers,
            &mut self.pair,
            &mut self.patc,
            &mut self.lines,
            &self.cells,
            &mut self.ram,
            &ROM,
            offset,
            value,
        );
    }

    // A supervisor read of one word.
    fn read(&mut self, address: u32) -> Reading {
        let access = Access {
            address,
            supervisor: true,
            write: false,
            lock: false,
            enables: 15,
            word: 0,
        };
        let answer = unit::access(
            &mut self.registers,
            &mut self.pair,
            &mut self.patc,
            &mut self.lines,
            &mut self.cells,
            &mut self.ram,
            &ROM,
            access,
        );
        Reading {
            outcome: answer.outcome,
            words: answer.words,
        }
    }

    // A probe of a supervisor address.
    fn probe(&mut self, address: u32) -> Probed {
        self.write_register(0x00C, address);
        self.write_register(0x004, 0x24);
        Probed {
            ssr: self.registers.ssr,
            sar: self.registers.sar,
        }
    }
}

impl fmt::Display for Reading {
    fn fmt<W: fmt::Write>(&self, f: &mut fmt::Formatter<W>) -> fmt::Result {
        match self.outcome {
            Outcome::Word(word) => write!(f, "the sensor says {word:08x}")?,
            Outcome::Failed(fault) => {
                write!(
                    f,
                    "no reading, fault {:08x} at {:08x}",
                    fault.code, fault.address
                )?;
            }
            Outcome::Idle => write!(f, "idle")?,
            Outcome::Written => write!(f, "written")?,
        }
        write!(f, "; words moved {:08x}.", self.words)
    }
}

impl fmt::Display for Probed {
    fn fmt<W: fmt::Write>(&self, f: &mut fmt::Formatter<W>) -> fmt::Result {
        let found = if words::bit(self.ssr, 0) {
            "found, physical address"
        } else if words::bit(self.ssr, 14) {
            "bus error, no answer; the table cannot be read at"
        } else {
            "not found, no valid descriptor at"
        };
        write!(f, "{found} {:08x}, status {:08x}.", self.sar, self.ssr)
    }
}

fn main(rt: HostRuntime) -> io::Result<()> {
    let mut machine = Machine::new();
    machine.write_tables();
    println!(&rt;
        "Tables: segments at 00004000, pages at 00006000; the sensor stands at 0000a124."
    )?;
    machine.write_register(0x200, 0x4001);
    println!(&rt; "Probe 00c05124: {}", machine.probe(0x00C05124))?;
    println!(&rt; "Read 00c05124: {}", machine.read(0x00C05124))?;
    println!(&rt; "Probe 00c06000: {}", machine.probe(0x00C06000))?;
    println!(&rt; "Probe 01000124: {}", machine.probe(0x01000124))
}
