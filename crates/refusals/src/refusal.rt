//! What a command comes to.

ghost use Rattle.std.specs.Prelude.{◌≡◌};
ghost use Rattle.refusals.specs.Statuses.{status_of_done, status_of_refusal, of_files, of_kernel, of_elf, of_map, of_asm, of_pipe, of_session};

use io_edges::files::FileError;
use io_edges::sink::Failed;
use kernel_front::KernelFault;
use kernel_syntax::ReadFault;
use kernel_types::TypeFault;
use machine_model::elf_fault::ElfFault;
use map_text::MapFault;
use pipe_script::PipeFault;
use reg_assign::{RegClass, too_many};
use std::alloc::AllocError;
use sve_asm::AsmFault;
use sve_debug::session::SessionFault;
use thiserror::Error;

/// How a command that is done came out. `Stopped` and `Spent` are of commands that run a program or a kernel.
#[derive(Clone, Copy, Debug, PartialEq, Eq)]
pub enum Done {
    Ended,
    Stopped,
    Spent,
}

impl Done {
    /// The exit status.
    pub fn status(self) -> u8
        ensures { result ≡ status_of_done self }
    {
        match self {
            Done::Ended => 0,
            Done::Stopped => 5,
            Done::Spent => 6,
        }
    }
}

/// Why a command is refused.
#[derive(Clone, Copy, Debug, PartialEq, Eq, Error)]
pub enum Refusal {
    /// The words are those of no command.
    #[error("usage")]
    Usage,
    /// The kernel is sound, and so many of its values are live at once that there are fewer registers of the class.
    #[error("kernel: {}", too_many(.class, .need))]
    TooManyLive { class: RegClass, need: u32 },
    /// The text is no kernel, or one that breaks a rule.
    #[error("kernel: {0}")]
    Kernel(KernelFault),
    /// A file has more than 67,108,864 bytes.
    #[error("file: too long")]
    TooLong,
    /// The file is no program that can be loaded.
    #[error("file: {0}")]
    Elf(ElfFault),
    /// The file is no page map that may stand beside the program.
    #[error("map: {0}")]
    Map(MapFault),
    /// The text is none of words.
    #[error("asm: {0}")]
    Asm(AsmFault),
    /// The text is no script, or the map does not fit beside the file of one of its lines.
    #[error("pipe: {0}")]
    Pipe(PipeFault),
    /// Memory was short.
    #[error("out of memory")]
    Memory,
    /// A file could not be read or written.
    #[error("file failed")]
    File,
    /// The output took no more, or the input of a debugging session gave none.
    #[error("output or input failed")]
    Output,
}

impl Refusal {
    /// The exit status.
    pub fn status(self) -> u8
        ensures { result ≡ status_of_refusal self }
    {
        match self {
            Refusal::Usage => 2,
            Refusal::TooManyLive { .. } => 3,
            Refusal::Kernel(_) => 3,
            Refusal::TooLong => 4,
            Refusal::Elf(_) => 4,
            Refusal::Map(_) => 4,
            Refusal::Asm(_) => 4,
            Refusal::Pipe(_) => 4,
            Refusal::Memory => 7,
            Refusal::File => 8,
            Refusal::Output => 9,
        }
    }
}

impl From<FileError> for Refusal {
    ghost from_gives = { λ answer refusal. refusal ≡ of_files answer };

    fn from(answer: FileError) -> Refusal {
        match answer {
            FileError::Failed => Refusal::File,
            FileError::TooLong => Refusal::TooLong,
            FileError::Memory => Refusal::Memory,
        }
    }
}

impl From<KernelFault> for Refusal {
    ghost from_gives = { λ fault refusal. refusal ≡ of_kernel fault };

    fn from(fault: KernelFault) -> Refusal {
        match fault {
            KernelFault::Unread(ReadFault::Memory) => Refusal::Memory,
            KernelFault::Broken(TypeFault::Memory) => Refusal::Memory,
            _ => Refusal::Kernel(fault),
        }
    }
}

impl From<MapFault> for Refusal {
    ghost from_gives = { λ fault refusal. refusal ≡ of_map fault };

    fn from(fault: MapFault) -> Refusal {
        match fault {
            MapFault::Memory => Refusal::Memory,
            _ => Refusal::Map(fault),
        }
    }
}

impl From<AsmFault> for Refusal {
    ghost from_gives = { λ fault refusal. refusal ≡ of_asm fault };

    fn from(fault: AsmFault) -> Refusal {
        match fault {
            AsmFault::Memory => Refusal::Memory,
            _ => Refusal::Asm(fault),
        }
    }
}

impl From<PipeFault> for Refusal {
    ghost from_gives = { λ fault refusal. refusal ≡ of_pipe fault };

    fn from(fault: PipeFault) -> Refusal {
        match fault {
            PipeFault::Memory => Refusal::Memory,
            _ => Refusal::Pipe(fault),
        }
    }
}

impl From<ElfFault> for Refusal {
    ghost from_gives = { λ fault refusal. refusal ≡ of_elf fault };

    fn from(fault: ElfFault) -> Refusal {
        match fault {
            ElfFault::Memory => Refusal::Memory,
            _ => Refusal::Elf(fault),
        }
    }
}

impl From<SessionFault> for Refusal {
    ghost from_gives = { λ fault refusal. refusal ≡ of_session fault };

    fn from(fault: SessionFault) -> Refusal {
        match fault {
            SessionFault::Memory => Refusal::Memory,
            SessionFault::Input => Refusal::Output,
            SessionFault::Output => Refusal::Output,
        }
    }
}

impl From<Failed> for Refusal {
    ghost use Rattle.refusals.specs.declared.refusal.Refusal.{Refusal};

    ghost from_gives = { λ _ refusal. refusal ≡ Refusal.Output };

    fn from(_failed: Failed) -> Refusal {
        Refusal::Output
    }
}

impl From<AllocError> for Refusal {
    ghost use Rattle.refusals.specs.declared.refusal.Refusal.{Refusal};

    ghost from_gives = { λ _ refusal. refusal ≡ Refusal.Memory };

    fn from(_error: AllocError) -> Refusal {
        Refusal::Memory
    }
}
