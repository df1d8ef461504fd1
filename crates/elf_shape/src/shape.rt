use load_model::{Ask, List, Name};

/// What a made file shows a loader.
#[derive(Drop)]
pub struct Shape {
    /// The word `e_machine`.
    pub machine: u16,
    /// The path of the program interpreter.
    pub interp: Option<Name>,
    pub soname: Option<Name>,
    /// The names of the needed libraries, in order.
    pub needs: List<Name>,
    pub rpath: Option<Name>,
    pub runpath: Option<Name>,
    /// Does it have a `DT_SYMBOLIC`?
    pub symbolic: bool,
    pub imports: List<Import>,
    pub exports: List<Export>,
    /// The versions that it asks beside those of its imports.
    pub asks: List<Ask>,
    /// Does it have a System V hash table?
    pub sysv: bool,
    /// Does it have a GNU hash table?
    pub gnu: bool,
    /// How many entries the dynamic table has behind its end.
    pub spare: u32,
    /// How many zero bytes its memory has behind the bytes of the file.
    pub zero: u64,
    /// Does it have section headers, the null one and that of the symbols?
    pub sections: bool,
}

/// A symbol that a made file asks of others.
#[derive(Drop)]
pub struct Import {
    pub name: Name,
    /// Its type, of the names that begin `STT_`, below 16.
    pub kind: u8,
    pub value: u64,
    /// The file of its version. It has a version where both are given.
    pub file: Option<Name>,
    pub version: Option<Name>,
}

/// A symbol that a made file offers.
#[derive(Drop)]
pub struct Export {
    pub name: Name,
    /// Its type, of the names that begin `STT_`, below 16.
    pub kind: u8,
    pub version: Option<Name>,
    /// Is it a definition that is not the default of its name?
    pub hidden: bool,
}
