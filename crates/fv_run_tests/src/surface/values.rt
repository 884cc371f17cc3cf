//! The names of fv_base, fv_depex and fv_hob.

use fv_base::{
    Align, ByteList, Fault, FaultKind, FileSystem, Guid, Place, Polarity, Port, sum8, sum16,
};
use fv_depex::{Depex, DepexFault, DepexFaultKind, Op, Phase, depex_bytes, evaluate, read_depex};
use fv_hob::{
    Handoff, Hob, HobFault, HobFaultKind, HobKind, HobList, MemoryAllocation, Resource, Span,
    Spans, hob_bytes, read_hobs, volume_hobs,
};

// Names the kinds of faults.
fn name_fault_kinds(kind: FaultKind) {
    match kind {
        FaultKind::Truncated
        | FaultKind::Signature
        | FaultKind::FileSystem
        | FaultKind::Revision
        | FaultKind::HeaderLength
        | FaultKind::HeaderSum
        | FaultKind::BlockMap
        | FaultKind::Length
        | FaultKind::ExtHeader
        | FaultKind::FileState
        | FaultKind::FileHeaderSum
        | FaultKind::FileSize
        | FaultKind::LargeFile
        | FaultKind::FileSum
        | FaultKind::Fixed
        | FaultKind::FreeSpace
        | FaultKind::DuplicateName
        | FaultKind::TopFile
        | FaultKind::SectionSize
        | FaultKind::SectionTail
        | FaultKind::Depth
        | FaultKind::NoRoom
        | FaultKind::TopAlignment
        | FaultKind::OutOfMemory
        | FaultKind::ReadFault
        | FaultKind::WriteFault => {}
    }
}

// Names the parts of a fault.
fn name_fault(fault: Fault) {
    let Fault { kind, place } = fault;
    let Place {
        offset: _,
        depth: _,
    } = place;
    name_fault_kinds(kind);
}

// Names the erase polarities and the file systems.
fn name_flash(polarity: Polarity, file_system: FileSystem) {
    match polarity {
        Polarity::Ones | Polarity::Zeros => {}
    }
    match file_system {
        FileSystem::Ffs2 | FileSystem::Ffs3 => {}
    }
}

/// Names the items of fv_base.
pub(super) fn name_base() {
    let _ = (Guid::from_bytes, Guid::to_bytes, Guid::parse, Guid::text);
    let _ = (sum8, sum16);
    let _ = (Align::from_attributes, Align::bytes);
    let _ = FaultKind::number;
    let _ = (ByteList::from_vec, ByteList::as_slice);
    let _ = (Port::<&[u8]>::new, Port::<&[u8]>::into_inner);
    let _ = (Port::<&[u8]>::read, Port::<&[u8]>::erred);
    let _ = Port::<&mut [u8]>::write;
    name_fault(Fault::outer(FaultKind::Truncated, 0));
    name_flash(Polarity::Ones, FileSystem::Ffs2);
}

// Names the ops of an expression, and the phases.
fn name_ops(op: Op, phase: Phase) {
    match op {
        Op::Before(_)
        | Op::After(_)
        | Op::Push(_)
        | Op::And
        | Op::Or
        | Op::Not
        | Op::True
        | Op::False
        | Op::End
        | Op::Sor => {}
    }
    match phase {
        Phase::Pei | Phase::Dxe => {}
    }
}

// Names the parts of a fault of an expression, and the kinds of these faults.
fn name_depex_fault(fault: DepexFault) {
    let DepexFault { kind, offset: _ } = fault;
    match kind {
        DepexFaultKind::Short
        | DepexFaultKind::Opcode
        | DepexFaultKind::Stack
        | DepexFaultKind::NoEnd
        | DepexFaultKind::Position
        | DepexFaultKind::OutOfMemory => {}
    }
}

/// Names the items of fv_depex.
pub(super) fn name_depex() {
    let _ = (read_depex, depex_bytes, evaluate);
    let _ = (Depex::phase, Depex::ops, Depex::rest);
    let _ = DepexFault::number;
    name_ops(Op::End, Phase::Pei);
    name_depex_fault(DepexFault {
        kind: DepexFaultKind::Short,
        offset: 0,
    });
}

// Names the parts of a block with a struct of its own.
fn name_large_blocks(handoff: Handoff, memory: MemoryAllocation, resource: Resource) {
    let Handoff {
        version: _,
        boot_mode: _,
        memory_top: _,
        memory_bottom: _,
        free_memory_top: _,
        free_memory_bottom: _,
        end_of_list: _,
    } = handoff;
    let MemoryAllocation {
        name: _,
        base: _,
        length: _,
        memory_type: _,
        reserved: _,
        rest: _,
    } = memory;
    let Resource {
        owner: _,
        resource_type: _,
        attribute: _,
        start: _,
        length: _,
    } = resource;
}

// Names the kinds of blocks.
fn name_hob_kinds(kind: &HobKind) {
    match kind {
        HobKind::Handoff(_)
        | HobKind::MemoryAllocation(_)
        | HobKind::Resource(_)
        | HobKind::GuidExtension {
            name: _,
            payload: _,
        }
        | HobKind::FirmwareVolume { base: _, length: _ }
        | HobKind::Cpu {
            memory_bits: _,
            io_bits: _,
            reserved: _,
        }
        | HobKind::MemoryPool
        | HobKind::FirmwareVolume2 {
            base: _,
            length: _,
            volume_name: _,
            file_name: _,
        }
        | HobKind::Capsule { base: _, length: _ }
        | HobKind::Unused { body_len: _ }
        | HobKind::End
        | HobKind::Other {
            code: _,
            payload: _,
        } => {}
    }
}

// Names the parts of a fault of a list, and the kinds of these faults.
fn name_hob_fault(fault: HobFault) {
    let HobFault { kind, offset: _ } = fault;
    match kind {
        HobFaultKind::Short
        | HobFaultKind::Length
        | HobFaultKind::First
        | HobFaultKind::Shape
        | HobFaultKind::NoEnd
        | HobFaultKind::OutOfMemory => {}
    }
}

// Names the parts of a span.
fn name_span(span: Span) {
    let Span { base: _, length: _ } = span;
}

/// Names the items of fv_hob.
pub(super) fn name_hob() {
    let _ = (read_hobs, hob_bytes, volume_hobs);
    let _ = (Hob::reserved, Hob::kind, Hob::code, Hob::length);
    let _ = (HobList::as_slice, Spans::as_slice);
    let _ = HobFault::number;
    let _ = name_large_blocks;
    name_hob_kinds(&HobKind::End);
    name_hob_fault(HobFault {
        kind: HobFaultKind::Short,
        offset: 0,
    });
    name_span(Span { base: 0, length: 0 });
}
