//! A tree of any size, in memory: a host, a program, and numbered libraries that need and call one
//! another. Definition: `specs/Generator.antt`.

ghost use Rattle.std.specs.Prelude.{◌≡◌, ◌≤◌, ◌∷◌, ◌++◌, [], codes, map, IfOk, Ok, OnOk, Some};
ghost use Rattle.std.specs.List.{range_with_len};
ghost use Rattle.path_text.specs.Path.{path_of};
ghost use Rattle.ports.specs.Calls.{no_calls};
ghost use Rattle.ports.specs.MemTree.{world_of};
ghost use Rattle.elf_make.specs.Generator.{IsTreeSize, bare, c_library_shape, callee, called, called_from, function_name, host_files, library_among, library_calls, library_file, library_name, library_needs, library_path, library_shape, loader_shape, made_at, made_tree, offered, program_path, program_shape, puts_called};

use crate::object::make_object;
use byte_view::constants::{EM_X86_64, STT_FUNC};
use elf_shape::{Export, Import, Shape};
use load_model::{List, Name, NoMemory};
use path_text::Abs;
use ports::MemTree;
use std::alloc::Global;

/// The generated tree with so many libraries.
#[tactic(auto, unfolding(crate::specs::Generator::made_tree))]
pub fn make_tree(alloc: Global, count: u32) -> Result<MemTree, NoMemory>
    requires { IsTreeSize count }
    ensures files { IfOk result (λ tree. world_of tree.files ≡ made_tree count) }
    ensures calls { IfOk result (λ tree. tree.calls ≡ no_calls) }
{
    let mut tree = MemTree::new(alloc)?;
    add_host(alloc, &mut tree)?;
    add_object(alloc, &mut tree, b"/gen/bin/app", &program_shape(alloc)?)?;
    add_libraries(alloc, &mut tree, count)?;
    Ok(tree)
}

/// Adds the dynamic loader and the C library.
fn add_host(alloc: Global, tree: &mut MemTree) -> Result<(), NoMemory>
    ensures files { OnOk result (world_of tree.new.files ≡ world_of tree.old.files ++ host_files) }
    ensures calls { tree.new.calls ≡ tree.old.calls }
{
    let loader = loader_shape(alloc)?;
    add_object(alloc, tree, b"/lib64/ld-linux-x86-64.so.2", &loader)?;
    let c_library = c_library_shape(alloc)?;
    add_object(alloc, tree, b"/lib64/libc.so.6", &c_library)
}

/// Adds the numbered libraries.
fn add_libraries(alloc: Global, tree: &mut MemTree, count: u32) -> Result<(), NoMemory>
    requires { IsTreeSize count }
    ensures files { OnOk result (world_of tree.new.files
        ≡ world_of tree.old.files ++ map (library_file count) (range_with_len 1 count)) }
    ensures calls { tree.new.calls ≡ tree.old.calls }
{
    for before in 0..count {
        add_library(alloc, tree, count, before + 1)?;
    }
    Ok(())
}

/// Adds the library of this number.
fn add_library(alloc: Global, tree: &mut MemTree, count: u32, number: u32) -> Result<(), NoMemory>
    requires count { IsTreeSize count }
    requires number { IsTreeSize number }
    ensures files { OnOk result (world_of tree.new.files
        ≡ world_of tree.old.files ++ library_file count number ∷ []) }
    ensures calls { tree.new.calls ≡ tree.old.calls }
{
    let path = format!(in alloc; "/gen/lib/libg{number}.so")?;
    let shape = library_shape(alloc, count, number)?;
    add_object(alloc, tree, path.as_bytes(), &shape)
}

/// Adds the object of a shape at a path, which is its identity too.
fn add_object(alloc: Global, tree: &mut MemTree, text: &[u8], shape: &Shape) -> Result<(), NoMemory>
    requires { path_of text.now ≡ Ok text.now }
    ensures files { OnOk result (world_of tree.new.files
        ≡ world_of tree.old.files ++ made_at text.now shape.now ∷ []) }
    ensures calls { tree.new.calls ≡ tree.old.calls }
{
    let Ok(path) = Abs::read(alloc, text) else {
        return Err(NoMemory);
    };
    let id = Name::from_bytes(alloc, text)?;
    let bytes = make_object(alloc, shape)?;
    // the paths of the tree are distinct, so that none is taken
    match tree.add(&path, &id, bytes.as_bytes()) {
        Ok(()) => Ok(()),
        Err(_) => Err(NoMemory),
    }
}

fn loader_shape(alloc: Global) -> Result<Shape, NoMemory>
    ensures { IfOk result (λ shape. shape ≡ loader_shape) }
{
    let mut shape = bare(alloc);
    shape.soname = Some(Name::from_bytes(alloc, b"ld-linux-x86-64.so.2")?);
    Ok(shape)
}

fn c_library_shape(alloc: Global) -> Result<Shape, NoMemory>
    ensures { IfOk result (λ shape. shape ≡ c_library_shape) }
{
    let mut shape = bare(alloc);
    shape.soname = Some(Name::from_bytes(alloc, b"libc.so.6")?);
    let puts = Name::from_bytes(alloc, b"puts")?;
    shape.exports.push(offered(alloc, puts, b"GLIBC_2.2.5")?)?;
    Ok(shape)
}

fn program_shape(alloc: Global) -> Result<Shape, NoMemory>
    ensures { IfOk result (λ shape. shape ≡ program_shape) }
{
    let mut shape = bare(alloc);
    shape.interp = Some(Name::from_bytes(alloc, b"/lib64/ld-linux-x86-64.so.2")?);
    shape.runpath = Some(Name::from_bytes(alloc, b"$ORIGIN/../lib")?);
    shape.needs = program_needs(alloc)?;
    shape.imports = program_calls(alloc)?;
    Ok(shape)
}

fn program_needs(alloc: Global) -> Result<List<Name>, NoMemory>
    ensures { IfOk result (λ needs. needs ≡ program_shape.needs) }
{
    let mut needs = List::new(alloc);
    needs.push(library_name(alloc, 1)?)?;
    needs.push(Name::from_bytes(alloc, b"libc.so.6")?)?;
    Ok(needs)
}

fn program_calls(alloc: Global) -> Result<List<Import>, NoMemory>
    ensures { IfOk result (λ calls. calls ≡ program_shape.imports) }
{
    let mut calls = List::new(alloc);
    let first = called_from(
        alloc,
        function_name(alloc, 1)?,
        library_name(alloc, 1)?,
        b"V1",
    )?;
    calls.push(first)?;
    calls.push(puts_called(alloc)?)?;
    Ok(calls)
}

/// The library of a number, of `count`.
#[tactic(auto, unfolding(crate::specs::Generator::library_shape))]
fn library_shape(alloc: Global, count: u32, number: u32) -> Result<Shape, NoMemory>
    requires count { IsTreeSize count }
    requires number { IsTreeSize number }
    ensures { IfOk result (λ shape. shape ≡ library_shape count number) }
{
    let mut shape = bare(alloc);
    name_library(alloc, &mut shape, number)?;
    shape.needs = library_needs(alloc, count, number)?;
    shape.imports = library_calls(alloc, count, number)?;
    let function = function_name(alloc, number)?;
    shape.exports.push(offered(alloc, function, b"V1")?)?;
    Ok(shape)
}

/// Gives a library its name and its run path.
fn name_library(alloc: Global, shape: &mut Shape, number: u32) -> Result<(), NoMemory>
    ensures { OnOk result (shape.new ≡ record shape.old {
      soname = Some (library_name number);
      runpath = Some (codes "$ORIGIN");
    }) }
{
    shape.soname = Some(library_name(alloc, number)?);
    shape.runpath = Some(Name::from_bytes(alloc, b"$ORIGIN")?);
    Ok(())
}

/// The libraries `2 * number` and `2 * number + 1`, where there are such, and the C library.
fn library_needs(alloc: Global, count: u32, number: u32) -> Result<List<Name>, NoMemory>
    requires count { IsTreeSize count }
    requires number { IsTreeSize number }
    ensures { IfOk result (λ needs. needs ≡ library_needs count number) }
{
    let mut needs = List::new(alloc);
    push_library(alloc, &mut needs, count, 2 * number)?;
    push_library(alloc, &mut needs, count, 2 * number + 1)?;
    needs.push(Name::from_bytes(alloc, b"libc.so.6")?)?;
    Ok(needs)
}

/// Adds the name of the library of a number, where there are so many.
fn push_library(
    alloc: Global,
    needs: &mut List<Name>,
    count: u32,
    number: u32,
) -> Result<(), NoMemory>
    ensures { OnOk result (needs.new ≡ needs.old ++ library_among count number) }
{
    if number <= count {
        needs.push(library_name(alloc, number)?)?;
    }
    Ok(())
}

/// The function of another library, and `puts`.
fn library_calls(alloc: Global, count: u32, number: u32) -> Result<List<Import>, NoMemory>
    requires count { IsTreeSize count }
    requires number { IsTreeSize number }
    ensures { IfOk result (λ calls. calls ≡ library_calls count number) }
{
    let mut calls = List::new(alloc);
    let callee = 7 * number % count + 1;
    if callee != number {
        calls.push(called(function_name(alloc, callee)?))?;
    }
    calls.push(puts_called(alloc)?)?;
    Ok(calls)
}

fn puts_called(alloc: Global) -> Result<Import, NoMemory>
    ensures { IfOk result (λ import. import ≡ puts_called) }
{
    let puts = Name::from_bytes(alloc, b"puts")?;
    let file = Name::from_bytes(alloc, b"libc.so.6")?;
    called_from(alloc, puts, file, b"GLIBC_2.2.5")
}

/// `libgI.so`.
fn library_name(alloc: Global, number: u32) -> Result<Name, NoMemory>
    ensures { IfOk result (λ name. name ≡ library_name number) }
{
    let text = format!(in alloc; "libg{number}.so")?;
    Name::from_bytes(alloc, text.as_bytes())
}

/// `gI`.
fn function_name(alloc: Global, number: u32) -> Result<Name, NoMemory>
    ensures { IfOk result (λ name. name ≡ function_name number) }
{
    let text = format!(in alloc; "g{number}")?;
    Name::from_bytes(alloc, text.as_bytes())
}

/// A function that is asked for by its name alone.
fn called(name: Name) -> Import
    ensures { result ≡ called name }
{
    Import {
        name,
        kind: STT_FUNC,
        value: 0,
        file: None,
        version: None,
    }
}

/// A function that is asked for in a version of a file.
fn called_from(alloc: Global, name: Name, file: Name, version: &[u8]) -> Result<Import, NoMemory>
    ensures { IfOk result (λ import. import ≡ called_from name file version.now) }
{
    let mut import = called(name);
    import.file = Some(file);
    import.version = Some(Name::from_bytes(alloc, version)?);
    Ok(import)
}

/// A function that is offered in a version.
fn offered(alloc: Global, name: Name, version: &[u8]) -> Result<Export, NoMemory>
    ensures { IfOk result (λ export. export ≡ offered name version.now) }
{
    Ok(Export {
        name,
        kind: STT_FUNC,
        version: Some(Name::from_bytes(alloc, version)?),
        hidden: false,
    })
}

/// An object with a System V hash table, and nothing else.
fn bare(alloc: Global) -> Shape
    ensures { result ≡ bare }
{
    Shape {
        machine: EM_X86_64,
        interp: None,
        soname: None,
        needs: List::new(alloc),
        rpath: None,
        runpath: None,
        symbolic: false,
        imports: List::new(alloc),
        exports: List::new(alloc),
        asks: List::new(alloc),
        sysv: true,
        gnu: false,
        spare: 0,
        zero: 0,
        sections: false,
    }
}
