//! Plans of runs.

ghost use Rattle.std.specs.Prelude.{◌≡◌, option_copied};
ghost use Rattle.fv_plan.specs.CommandFiles.{first_file, second_file};

use fv_base::Guid;

/// The plan of a run, which a command line asks for.
#[derive(Debug, Drop)]
pub struct Plan {
    /// Whether the inputs, and the images and parts that are written, are hexadecimal text.
    pub hex: bool,
    /// The command.
    pub command: Command,
}

/// A command, and the files that it works on.
#[derive(Debug, Drop)]
pub enum Command {
    /// A task with one input.
    Single {
        /// The task.
        task: Task,
        /// The byte of the input at which the volume begins, or None if `--at` is not given. If the
        /// input is hexadecimal text, this counts decoded bytes.
        at: Option<u64>,
        /// The input's file, or None for standard input.
        file: Option<String>,
    },
    /// List the blocks of a hand-off list.
    Hobs {
        /// The list's file, or None for standard input.
        file: Option<String>,
        /// The image in which the list's volumes are looked up, if one is given.
        image: Option<ImageFile>,
    },
    /// Write the contents of a packed section: a compression section or a GUID-defined section.
    Open {
        /// The numbers that lead to the section in the volume with which the input begins, or None if
        /// the section itself begins the input.
        path: Option<Vec<u64>>,
        /// The byte of the input at which the volume or the section begins, or None if `--at` is not
        /// given. If the input is hexadecimal text, this counts decoded bytes.
        at: Option<u64>,
        /// The input's file, or None for standard input.
        file: Option<String>,
    },
    /// Report whether two volumes have the same meaning.
    Compare {
        /// The first volume.
        first: VolumeFile,
        /// The second volume.
        second: VolumeFile,
    },
    /// Report whether two images mean the same at every level, also in their packed sections.
    Same {
        /// The file of the first image.
        first: String,
        /// The file of the second image.
        second: String,
    },
}

/// A task with one input.
#[derive(Clone, Copy, Debug, PartialEq, Eq)]
pub enum Task {
    /// Write the canonical image of a volume.
    Normalise,
    /// Write an image in which each volume is replaced by its canonical image.
    NormaliseAll,
    /// List the files and the sections of a volume.
    List,
    /// List the files and the sections, with the SHA-256 of each volume's canonical image, of each
    /// file's data in that image, and of each leaf section's body.
    ListSums,
    /// List the files and the sections of a volume, also those in packed sections.
    ListOpened,
    /// Write the data of a file of a volume, or the body of one of the file's sections.
    Extract(Part),
    /// Write the data of a file, or the body of one of its sections. The file is in a volume, or in
    /// a volume in a section of it, which may be packed.
    ExtractOpened(Part),
    /// Report whether a volume is its own canonical image, and its parts that deserve a note.
    Check,
    /// Report for each volume of an image whether it is its own canonical image, or its fault.
    CheckAll,
    /// List the cells of a volume, with their places.
    Cells,
    /// Write a volume with none of its files marked as fixed.
    Unfix,
    /// Find the volumes in an input.
    Scan,
    /// List what each byte of an input is, whatever is wrong with it.
    Survey,
    /// List what each byte of an input is, and of the contents of its packed sections at every level.
    SurveyOpened,
}

/// The part of a volume that is extracted.
#[derive(Clone, Copy, Debug, PartialEq, Eq)]
pub struct Part {
    /// The name of the file.
    pub name: Guid,
    /// The type of the section, or None for the data of the file.
    pub section: Option<u8>,
    /// Which of the sections with this type, counted from 1.
    pub instance: u32,
}

/// A volume in a file.
#[derive(Debug, Drop)]
pub struct VolumeFile {
    /// The path of the file.
    pub path: String,
    /// The byte of the file at which the volume begins, or None if the file is the volume. If the
    /// file is hexadecimal text, this counts decoded bytes.
    pub at: Option<u64>,
}

/// An image in a file.
#[derive(Debug, Drop)]
pub struct ImageFile {
    /// The path of the file.
    pub path: String,
    /// The address of the image's first byte.
    pub base: u64,
}

impl Plan {
    /// Returns the file of the first input, or None for standard input.
    pub fn first(&self) -> Option<&String>
        ensures { option_copied result ≡ first_file self.now.command }
    {
        match &self.command {
            Command::Single { file, .. }
            | Command::Hobs { file, .. }
            | Command::Open { file, .. } => file.as_ref(),
            Command::Compare { first, .. } => Some(&first.path),
            Command::Same { first, .. } => Some(first),
        }
    }

    /// Returns the file of the second input, if there is a second input.
    pub fn second(&self) -> Option<&String>
        ensures { option_copied result ≡ second_file self.now.command }
    {
        match &self.command {
            Command::Single { .. } | Command::Open { .. } => None,
            Command::Hobs { image, .. } => image.as_ref().map(|image| &image.path),
            Command::Compare { second, .. } => Some(&second.path),
            Command::Same { second, .. } => Some(second),
        }
    }
}
