//! The store.
ghost use Rattle.std.specs.Prelude.{◌≡◌, ℕ, ◌+◌, ◌*◌, ◌^◌, ◌<◌, ◌≤◌, ◌∷◌, [], length, take, drop, true, false, IsSome, is_some, IfNone, IfSome, slice_get, IfOk, IfErr, OnOk, OnErr};
ghost use Rattle.flat_ir.specs.History.{History, Alloc, Free, initial_of, initial_byte};
ghost use Rattle.flat_ir.specs.declared.program.ProgramData.{ProgramData};
ghost use Rattle.concrete_memory.specs.Objects.{AreZero, AreInitial};
ghost use Rattle.flat_ir.specs.Steps.{is_within, access_fault, made_by_malloc, free_fault, freed_object_fault};
ghost use Rattle.flat_ir.specs.Registers.{bytes_of_value, bytes_of_type};
ghost use Rattle.flat_ir.specs.Whole.{IsWidth};
ghost use Rattle.concrete_memory.specs.Loading.{Loads, load_fault};
ghost use Rattle.concrete_memory.specs.Standing.{Copies, copy_fault};
ghost use Rattle.concrete_memory.specs.Accesses.{Reaches, fault_of_missing, free_fault_of_missing, fault_of_live_free};
ghost use Rattle.concrete_memory.specs.Standing.{StandsFor, SameObjects, IsNew, IsMadeName, Frees, Puts, PutsBytes, LivesWith, overwritten, overwritten_life, life_of, HasPlaces, all_written, Stores, IfFault};

use crate::joining::{join_value, size_of_type};
use crate::values::{AccessError, cut_value, size_of_value};
use flat_ir::{
    Address, ConcreteByte, ConcreteValue, FaultKind, GlobalVar, InitByte, Node, ObjectName,
    Program, RegType,
};
use plain_list::Sequence;
use std::alloc::{AllocError, Global};
use std::collections::HashMap;

/// What became of an object: its bytes while it lives.
#[derive(Drop)]
pub enum Life {
    Live(Sequence<ConcreteByte>),
    Ended,
}

/// The objects that there are or were, by their names.
#[derive(Drop)]
pub struct Store {
    alloc: Global,
    objects: HashMap<ObjectName, Life>,
}

// So many bytes of value 0.
fn zeros(alloc: Global, size: u64) -> Result<Sequence<ConcreteByte>, AllocError>
    ensures { IfOk result (λ bytes. AreZero size bytes) }
{
    let mut bytes = Sequence::new(alloc);
    for _k in 0..size {
        bytes.push(ConcreteByte::Int(0))?;
    }
    Ok(bytes)
}

// The byte that a global starts with.
fn start_byte(init: &InitByte) -> ConcreteByte
    ensures { result ≡ initial_byte (Some init.now) }
{
    match init {
        InitByte::Int(byte) => ConcreteByte::Int(*byte),
        InitByte::PtrByte { global, offset, j } => {
            let base = Some(ObjectName::Global(*global));
            ConcreteByte::PtrByte(
                Address {
                    base,
                    offset: *offset,
                },
                *j,
            )
        }
    }
}

fn byte_of_global(var: &GlobalVar, k: u64) -> ConcreteByte
    ensures { result ≡ initial_of (Some var.now) k }
{
    match var.init.get(k as usize) {
        Some(init) => start_byte(init),
        None => ConcreteByte::Int(0),
    }
}

// What a global starts with.
fn first_bytes(alloc: Global, var: &GlobalVar) -> Result<Sequence<ConcreteByte>, AllocError>
    ensures { IfOk result (λ bytes. AreInitial var.now bytes) }
{
    let mut bytes = Sequence::new(alloc);
    for k in 0..var.size {
        bytes.push(byte_of_global(var, k))?;
    }
    Ok(bytes)
}

// The part of an object's bytes that an access of n bytes reaches.
fn part_of(bytes: &[ConcreteByte], offset: u64, n: u64) -> Result<&[ConcreteByte], FaultKind>
    ensures ok { IfOk result (λ part. (is_within offset n (length bytes.now) ≡ true) × (part.now ≡ take n (drop offset bytes.now)) × (length bytes.now < 2 ^ 64)) }
    ensures size { IfOk result (λ part. length part.now ≡ n) }
    ensures err { IfErr result (λ kind. (is_within offset n (length bytes.now) ≡ false) × (kind ≡ FaultKind.OutOfBounds)) }
{
    let size = bytes.len() as u64;
    if n <= size && offset <= size - n {
        Ok(&bytes[offset as usize..(offset + n) as usize])
    } else {
        Err(FaultKind::OutOfBounds)
    }
}

// The fault of an access to a name that the store doesn't have.
fn missing(name: &ObjectName) -> FaultKind
    ensures { result ≡ fault_of_missing name.now }
{
    match name {
        ObjectName::Global(_) => FaultKind::OutOfBounds,
        ObjectName::Made { .. } => FaultKind::UseAfterFree,
    }
}

/// Whether a malloc made the object.
fn is_from_malloc(program: &Program, name: &ObjectName) -> bool
    ensures { result ≡ made_by_malloc program.now name.now }
{
    let ObjectName::Made { made, .. } = name else {
        return false;
    };
    let Some(func) = program.parts().funcs.get(made.func.0 as usize) else {
        return false;
    };
    matches!(
        func.nodes.get(made.node.0 as usize),
        Some(Node::Malloc { .. })
    )
}

// The fault of a free of a name that the store doesn't have.
fn missing_free(name: &ObjectName) -> FaultKind
    ensures { result ≡ free_fault_of_missing name.now }
{
    match name {
        ObjectName::Global(_) => FaultKind::BadFree,
        ObjectName::Made { .. } => FaultKind::UseAfterFree,
    }
}

// The fault of a free of a live object.
fn fault_of_live(program: &Program, name: &ObjectName, offset: u64) -> Option<FaultKind>
    ensures fault { result ≡ fault_of_live_free program.now name.now offset }
    ensures made { IfNone result (IsMadeName name.now) }
{
    if is_from_malloc(program, name) && offset == 0 {
        None
    } else {
        Some(FaultKind::BadFree)
    }
}

// Writes bytes one after another, the first at a place.
fn overwrite(bytes: &mut Sequence<ConcreteByte>, from: u64, written: Vec<ConcreteByte>)
    requires { from + length written.items ≤ length bytes.old }
    ensures { bytes.new ≡ overwritten from written.items bytes.old }
{
    let end = bytes.len();
    let mut place = from as usize;
    for byte in written {
        prove!(place < end);
        bytes.put(place, byte);
        place += 1;
    }
}

// Writes bytes of a live object, if it has those places.
fn overwrite_life(life: &mut Life, from: u64, written: Vec<ConcreteByte>)
    requires { LivesWith (from + length written.items) life.old }
    ensures { life.new ≡ overwritten_life from written.items life.old }
{
    if let Life::Live(bytes) = life {
        overwrite(bytes, from, written);
    }
}

impl Store {
    /// The globals alone, each with its first bytes.
    pub fn new(alloc: Global, program: &Program) -> Result<Store, AllocError>
        ensures { IfOk result (λ store. StandsFor program.now store []) }
    {
        let mut objects = HashMap::new(alloc);
        let globals = program.parts().globals.as_slice();
        for (g, var) in globals.iter().enumerate() {
            let bytes = first_bytes(alloc, var)?;
            objects.insert(ObjectName::Global(g as u32), Life::Live(bytes))?;
        }
        Ok(Store { alloc, objects })
    }

    /// Makes an object of so many bytes of value 0.
    pub fn alloc(&mut self, name: ObjectName, size: u64) -> Result<(), AllocError>
        requires { IsNew self.old name }
        ensures ok { OnOk result ((p : ProgramData) (h : History) → StandsFor p self.old h → StandsFor p self.new (Alloc name size ∷ h)) }
        ensures err { OnErr result (SameObjects self.old self.new) }
    {
        let bytes = zeros(self.alloc, size)?;
        self.objects.insert(name, Life::Live(bytes))?;
        Ok(())
    }

    /// Whether there is or was an object of this name.
    pub fn has(&self, name: &ObjectName) -> bool
        ensures { result ≡ is_some (life_of self.now name.now) }
    {
        self.objects.contains_key(name)
    }

    // The n bytes at an address, or the first test that fails.
    fn bytes_at(&self, at: &Address, n: u64) -> Result<&[ConcreteByte], FaultKind>
        requires { 1 ≤ n }
        ensures ok { IfOk result (λ bytes. (p : ProgramData) (h : History) → StandsFor p self.now h → Reaches p h n at.now bytes.now) }
        ensures size { IfOk result (λ bytes. length bytes.now ≡ n) }
        ensures places { OnOk result (IfSome at.now.base (λ x. HasPlaces self.now x at.now.offset n)) }
        ensures err { IfErr result (λ kind. (p : ProgramData) (h : History) → StandsFor p self.now h → access_fault p h n at.now ≡ Some kind) }
    {
        let Some(name) = &at.base else {
            return Err(FaultKind::NullAccess);
        };
        match self.objects.get(name) {
            Some(Life::Live(bytes)) => part_of(bytes.as_slice(), at.offset, n),
            Some(Life::Ended) => Err(FaultKind::UseAfterFree),
            None => Err(missing(name)),
        }
    }

    // The object has ended.
    fn put_end(&mut self, name: &ObjectName)
        requires { IsSome (life_of self.old name.now) }
        ensures { Puts self.old self.new name.now Life.Ended }
    {
        if let Some(life) = self.objects.get_mut(name) {
            *life = Life::Ended;
        }
    }

    // The first test that a free of an object fails.
    fn fault_of_free(&self, program: &Program, name: &ObjectName, offset: u64) -> Option<FaultKind>
        ensures fault { (h : History) → StandsFor program.now self.now h → result ≡ freed_object_fault program.now h name.now offset }
        ensures made { IfNone result (IsMadeName name.now × IsSome (life_of self.now name.now)) }
    {
        match self.objects.get(name) {
            None => Some(missing_free(name)),
            Some(Life::Ended) => Some(FaultKind::UseAfterFree),
            Some(Life::Live(_)) => fault_of_live(program, name, offset),
        }
    }

    /// Frees what a malloc made; null may be freed.
    pub fn free(&mut self, program: &Program, at: &Address) -> Result<(), FaultKind>
        ensures ok { OnOk result ((h : History) → StandsFor program.now self.old h → Frees program.now self.new at.now h) }
        ensures fault { IfErr result (λ kind. (h : History) → StandsFor program.now self.old h → free_fault program.now h at.now ≡ Some kind) }
        ensures err { OnErr result (self.new ≡ self.old) }
    {
        let Some(name) = &at.base else {
            return if at.offset == 0 {
                Ok(())
            } else {
                Err(FaultKind::BadFree)
            };
        };
        match self.fault_of_free(program, name, at.offset) {
            Some(kind) => Err(kind),
            None => {
                self.put_end(name);
                Ok(())
            }
        }
    }

    /// Ends what an alloca made.
    pub fn end(&mut self, name: &ObjectName)
        requires made { IsMadeName name.now }
        requires there { IsSome (life_of self.old name.now) }
        ensures { (p : ProgramData) (h : History) → StandsFor p self.old h → StandsFor p self.new (Free name.now ∷ h) }
    {
        self.put_end(name);
    }

    // Writes bytes one after another, at places that the object has.
    fn put_bytes(&mut self, name: &ObjectName, offset: u64, bytes: Vec<ConcreteByte>)
        requires { HasPlaces self.old name.now offset (length bytes.items) }
        ensures { PutsBytes self.old self.new name.now offset bytes.items }
    {
        if let Some(life) = self.objects.get_mut(name) {
            overwrite_life(life, offset, bytes);
        }
    }

    /// Stores a value at an address.
    pub fn store(&mut self, at: &Address, value: &ConcreteValue) -> Result<(), AccessError>
        requires { 1 ≤ bytes_of_value value.now }
        ensures ok { OnOk result ((p : ProgramData) (h : History) → StandsFor p self.old h → Stores p self.new at.now value.now h) }
        ensures fault { IfErr result (IfFault (λ kind. (p : ProgramData) (h : History) → StandsFor p self.old h → access_fault p h (bytes_of_value value.now) at.now ≡ Some kind)) }
        ensures err { OnErr result (self.new ≡ self.old) }
    {
        let n = size_of_value(value);
        let Ok(bytes) = cut_value(self.alloc, value, n) else {
            return Err(AccessError::Memory);
        };
        if let Err(kind) = self.bytes_at(at, n) {
            return Err(AccessError::Fault(kind));
        }
        let Some(name) = &at.base else {
            return Err(AccessError::Fault(FaultKind::NullAccess));
        };
        self.put_bytes(name, at.offset, bytes);
        Ok(())
    }

    /// Loads a value of a type from an address: the bytes that were last written there, joined.
    pub fn load(&self, at: &Address, as_type: RegType) -> Result<ConcreteValue, AccessError>
        requires type_is { IsWidth as_type }
        requires some { 1 ≤ bytes_of_type as_type }
        ensures ok { IfOk result (λ v. (p : ProgramData) (h : History) → StandsFor p self.now h → Loads p h at.now as_type v) }
        ensures fault { IfErr result (IfFault (λ kind. (p : ProgramData) (h : History) → StandsFor p self.now h → load_fault p h at.now as_type ≡ Some kind)) }
    {
        let bytes = match self.bytes_at(at, size_of_type(as_type)) {
            Ok(bytes) => bytes,
            Err(kind) => return Err(AccessError::Fault(kind)),
        };
        match join_value(bytes, as_type) {
            Ok(Some(value)) => Ok(value),
            Ok(None) => Err(AccessError::Fault(FaultKind::MixedBytes)),
            Err(AllocError) => Err(AccessError::Memory),
        }
    }

    // The byte at an address, or the first test that fails.
    fn byte_at(&self, at: &Address) -> Result<ConcreteByte, AccessError>
        ensures ok { IfOk result (λ byte. (p : ProgramData) (h : History) → StandsFor p self.now h → Reaches p h 1 at.now (byte ∷ [])) }
        ensures fault { IfErr result (IfFault (λ kind. (p : ProgramData) (h : History) → StandsFor p self.now h → access_fault p h 1 at.now ≡ Some kind)) }
    {
        match self.bytes_at(at, 1) {
            Ok([byte]) => match byte.copy() {
                Ok(copy) => Ok(copy),
                Err(AllocError) => Err(AccessError::Memory),
            },
            Ok(_) => unreachable!(),
            Err(kind) => Err(AccessError::Fault(kind)),
        }
    }

    /// Copies one byte, as it is, from an address to another. The source is tested first.
    pub fn copy(&mut self, from: &Address, to: &Address) -> Result<(), AccessError>
        ensures ok { OnOk result ((p : ProgramData) (h : History) → StandsFor p self.old h → Copies p self.new from.now to.now h) }
        ensures fault { IfErr result (IfFault (λ kind. (p : ProgramData) (h : History) → StandsFor p self.old h → copy_fault p h from.now to.now ≡ Some kind)) }
        ensures err { OnErr result (self.new ≡ self.old) }
    {
        let byte = self.byte_at(from)?;
        if let Err(kind) = self.bytes_at(to, 1) {
            return Err(AccessError::Fault(kind));
        }
        let Some(name) = &to.base else {
            return Err(AccessError::Fault(FaultKind::NullAccess));
        };
        let Ok(bytes) = vec![in self.alloc; byte] else {
            return Err(AccessError::Memory);
        };
        self.put_bytes(name, to.offset, bytes);
        Ok(())
    }
}
