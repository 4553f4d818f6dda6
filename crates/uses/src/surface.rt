//! The calls and types that programs may count on, each named by its public path with its types: one that is lost or changed doesn't
//! compile here. `docs/DECISIONS.md` says which of them have other types than they were specified with, and why.
//!
//! A function is named as a pointer of its type. One that is generic, or lends out part of what it is given, can't be, so it is called. The
//! variants of types, kinds and faults are named by the tests of their words.

ghost use Rattle.std.specs.Prelude.{◌≡◌, ◌≤◌, ◌<◌, ◌+◌, ◌^◌, All, length};
ghost use Rattle.nc_base.specs.Headers.{IsSound};
ghost use Rattle.nc_types.specs.Versions.{offset_limit};
ghost use Rattle.nc_walk.specs.code.RecordSlabs.{record_slabs};
ghost use Rattle.nc_walk.specs.code.DataPart.{AreListedOf};

use cdl_parse::{CdlFault, Cutter, Token, TokenKind, parse};
use clap::{ArgMatches, Command};
use cli_base::OptFault;
use nc_base::{Att, Dataset, Dim, Header, ListedArray, NcType, NumRecs, Sequence, Var, Version};
use nc_file::{
    CountedRead, DripSource, FailWhen, FileSource, Flush, HeadFault, IoSink, MemSink, MemSource,
    OffsetTooLarge, OpenFailed, Sink, SinkFailed, SliceSink, Source, SourceFailed, WriteFailed,
};
use nc_walk::{RecordSlab, Walk, WalkFault};
use ncdump::{DumpFault, DumpOptions};
use ncgen::{GenFault, GenOptions, Prepared, TextFault};
use std::alloc::{AllocError, Global};
use std::fs::File;
use std::io::{Read, Write};
use std::rt::Files;

/// A dataset with a dimension, an attribute and a variable of this name, field by field.
pub fn dataset(alloc: Global, name: &[u8]) -> Result<Dataset, AllocError> {
    let mut dims = Sequence::new(alloc);
    dims.push(Dim {
        name: Sequence::from_vec(Vec::from_slice(alloc, name)?),
        len: 0,
    })?;
    let mut gatts = Sequence::new(alloc);
    gatts.push(Att {
        name: Sequence::from_vec(Vec::from_slice(alloc, name)?),
        ty: NcType::Char,
        vals: Sequence::new(alloc),
    })?;
    let mut vars = Sequence::new(alloc);
    vars.push(Var {
        name: Sequence::from_vec(Vec::from_slice(alloc, name)?),
        dimids: Sequence::new(alloc),
        atts: Sequence::new(alloc),
        ty: NcType::Int,
        begin_at: 0,
    })?;
    let header = Header {
        version: Version::Cdf1,
        numrecs: NumRecs::Known(0),
        dims,
        gatts,
        vars,
    };
    Ok(Dataset {
        header,
        arrays: Sequence::<Sequence<u8>>::new(alloc),
    })
}

/// The calls of `nc_base`.
pub fn sizes_and_names() {
    let _: fn(NcType) -> u64 = NcType::size;
    let _: fn(NcType) -> u32 = NcType::code;
    let _: fn(u32) -> Option<NcType> = NcType::of_code;
    let _: fn(NcType) -> i128 = NcType::default_fill;
    let _: fn(&Header) -> bool = Header::sound;
    let _: fn(&[u8]) -> bool = nc_base::check_name;
    let _: fn(&Header, usize) -> Option<u64> = nc_base::slab_bytes;
    let _: fn(&Header) -> Option<u64> = nc_base::rec_size;
    let _: fn(&Header, u64) -> u64 = nc_base::records;
    let _: fn(&Header, usize, u64) -> u128 = nc_base::extent_end;
    let _: fn(&Var) -> i128 = nc_base::fill_of;
    let _: fn(&Header) -> u128 = nc_base::weight;
}

/// The stem of a path.
pub fn stem(path: &str) -> &str {
    nc_base::stem(path)
}

/// The calls of any source, sink, output, writer and reader.
pub fn source_len<S: Source>(source: &S) -> u64 {
    source.len()
}

pub fn read_at<S: Source>(source: &mut S, at: u64, into: &mut [u8]) -> Result<usize, SourceFailed>
    requires room { 0 < length into.old }
    requires inside { at < length (S.view source.old).bytes }
{
    source.read_at(at, into)
}

pub fn write_some<W: Sink>(sink: &mut W, bytes: &[u8]) -> Result<usize, SinkFailed> {
    sink.write_some(bytes)
}

pub fn flush<O: Flush>(out: &mut O) -> Result<(), SinkFailed> {
    out.flush()
}

pub fn sink_over_writer<V: Write>(writer: V) -> IoSink<V> {
    IoSink::new(writer)
}

pub fn counted_reader<R: Read>(reader: R) -> CountedRead<R> {
    CountedRead::new(reader)
}

pub fn read_some<R: Read>(
    input: &mut CountedRead<R>,
    into: &mut [u8],
) -> Result<usize, SourceFailed> {
    input.read_some(into)
}

pub fn put<W: Sink>(sink: &mut W, bytes: &[u8]) -> Result<(), WriteFailed> {
    nc_file::put(sink, bytes)
}

pub fn sink_in_memory(alloc: Global) -> MemSink {
    MemSink::new(alloc)
}

/// Devices that keep what they are given: a source in memory, the bytes of a sink, and what stands in for devices in tests.
pub fn source_in_memory(bytes: &[u8]) -> MemSource<'_> {
    MemSource::new(bytes)
}

pub fn bytes_of_sink(sink: &MemSink) -> &[u8] {
    sink.as_slice()
}

pub fn dripping_source(bytes: &[u8], fail: FailWhen) -> DripSource<'_> {
    DripSource::new(bytes, 1, fail)
}

pub fn bytes_handed(source: &DripSource<'_>) -> u128 {
    source.handed()
}

pub fn sink_over_slice(into: &mut [u8]) -> SliceSink<'_> {
    SliceSink::new(into, 1)
}

/// A file of the system as a source.
pub fn file_source(rt: &impl Files<File = File>, path: &str) -> Result<FileSource, OpenFailed> {
    FileSource::open(rt, path)
}

/// The calls of `nc_file` on headers, of `nc_walk` on the data part of a file, and of `cdl_print` on heads and names.
pub fn headers() {
    let _: fn(Header) -> Result<Header, OffsetTooLarge> = nc_file::with_begins;
    let _: fn(&Header) -> u64 = nc_file::header_len;
}

pub fn read_header<S: Source>(
    alloc: Global,
    source: &mut S,
    buf: &mut [u8],
) -> Result<Header, HeadFault>
    requires { 16 ≤ length buf.old }
{
    nc_file::read_header(alloc, source, buf)
}

pub fn write_file<W: Sink>(
    sink: &mut W,
    header: &Header,
    slabs: &[RecordSlab],
    arrays: &[ListedArray],
) -> Result<(), WriteFailed>
    requires sound { IsSound header.now }
    requires begins { All (λ var. var.begin_at < offset_limit header.now.version) header.now.vars }
    requires slabs { slabs.now ≡ record_slabs 0 header.now.dims header.now.vars }
    requires listed { AreListedOf header.now arrays.now }
{
    nc_file::write_header(sink, header)?;
    nc_walk::write_data(sink, header, slabs, arrays)
}

pub fn put_head<W: Sink>(sink: &mut W, name: &[u8], header: &Header) -> Result<(), WriteFailed> {
    cdl_print::put_name(sink, name)?;
    cdl_print::put_head(sink, name, header, 0)
}

/// The first values of a variable, by `Walk`, and the failure of a walk.
pub fn first_chunk_len<S: Source>(
    source: &mut S,
    header: &Header,
    var: usize,
    records: u64,
    buf: &mut [u8],
) -> Result<Option<usize>, WalkFault>
    requires sound { IsSound header.now }
    requires there { var < length header.now.vars }
    requires buffer { 16 ≤ length buf.old }
{
    let mut walk = Walk::new(header, var, records, buf);
    Ok(walk.next(source)?.map(|chunk| chunk.len()))
}

/// The calls of `cdl_parse`: a whole text, and its first statement.
pub fn texts() {
    let _: fn(Global, &[u8], Version) -> Result<Dataset, CdlFault> = parse;
}

pub fn first_statement(
    alloc: Global,
    text: &[u8],
    version: Version,
) -> Result<Vec<Token>, AllocError> {
    let mut statement: Vec<Token> = Vec::new(alloc);
    let _is_there: bool = Cutter::new(text, version).next(&mut statement)?;
    Ok(statement)
}

pub const END: Token = Token {
    kind: TokenKind::End,
    line: 1,
    first: 0,
    past: 0,
};

/// The options of the programs, field by field.
pub fn dump_options(file: String, name: Sequence<u8>) -> DumpOptions {
    DumpOptions {
        file,
        name,
        head_only: true,
        coords: false,
        chosen: None::<Sequence<Sequence<u8>>>,
        width: 80,
    }
}

pub fn gen_options(out: Option<String>, file: Option<String>) -> GenOptions {
    GenOptions {
        kind: Version::Cdf1,
        out,
        file,
    }
}

/// The command lines of the programs.
pub fn commands<'a>(alloc: Global) -> Result<[Command<'a>; 2], AllocError> {
    Ok([ncdump::command(alloc)?, ncgen::command(alloc)?])
}

pub fn options(alloc: Global, matches: &ArgMatches<'_>) -> Result<GenOptions, OptFault> {
    let _dump: DumpOptions = ncdump::options_of(alloc, matches)?;
    ncgen::options_of(alloc, matches)
}

/// The calls of `ncdump`.
pub fn select() {
    let _: fn(Global, &Header, &DumpOptions) -> Result<Vec<bool>, DumpFault> = ncdump::select;
}

pub fn dump<S: Source, W: Sink>(
    alloc: Global,
    source: &mut S,
    options: &DumpOptions,
    buf: &mut [u8],
    sink: &mut W,
) -> Result<(), DumpFault>
    requires { 16 ≤ length buf.old }
{
    ncdump::dump(alloc, source, options, buf, sink)
}

pub fn show<S: Source, W: Sink>(
    source: &mut S,
    header: &Header,
    shown: &[bool],
    options: &DumpOptions,
    buf: &mut [u8],
    sink: &mut W,
) -> Result<(), DumpFault>
    requires sound { IsSound header.now }
    requires shown { length shown.now ≡ length header.now.vars }
    requires buffer { 16 ≤ length buf.old }
{
    ncdump::show(source, header, shown, options, buf, sink)
}

pub fn dump_fault_line<W: Sink>(
    sink: &mut W,
    file: &[u8],
    fault: &DumpFault,
) -> Result<(), WriteFailed> {
    ncdump::fault_line(sink, file, fault)
}

pub fn run_ncdump<O: Sink, E: Sink>(
    rt: &HostRuntime,
    alloc: Global,
    words: &[&str],
    out: &mut O,
    err: &mut E,
) -> u8 {
    ncdump::run(rt, alloc, words, out, err)
}

/// The calls of `ncgen`.
pub fn read_text<R: Read>(
    alloc: Global,
    input: &mut CountedRead<R>,
    max: usize,
) -> Result<Vec<u8>, TextFault>
    requires { max + 1 < 2 ^ 64 }
{
    ncgen::read_text(alloc, input, max)
}

pub fn prepare_and_write<W: Sink>(
    alloc: Global,
    text: &[u8],
    sink: &mut W,
) -> Result<(), GenFault> {
    let prepared: Prepared = ncgen::prepare(alloc, text, Version::Cdf1)?;
    let written: Result<(), WriteFailed> = prepared.write(sink);
    Ok(written?)
}

pub fn generate<W: Sink>(alloc: Global, text: &[u8], sink: &mut W) -> Result<(), GenFault> {
    ncgen::generate(alloc, text, Version::Cdf1, sink)
}

pub fn gen_fault_line<W: Sink>(
    sink: &mut W,
    file: &[u8],
    fault: &GenFault,
) -> Result<(), WriteFailed> {
    ncgen::fault_line(sink, file, fault)
}

pub fn run_ncgen<R: Read, E: Sink>(
    rt: &HostRuntime,
    alloc: Global,
    words: &[&str],
    input: &mut CountedRead<R>,
    err: &mut E,
) -> u8 {
    ncgen::run(rt, alloc, words, input, err)
}

/// The laws of files and texts.
pub fn laws() {
    let _: fn() = ncgen_laws::laws::one_header;
    let _: fn() = ncgen_laws::laws::file_reads_back;
    let _: fn() = ncgen_laws::laws::text_reads_back;
    let _: fn() = ncgen_laws::laws::token_reads_back;
    let _: fn() = ncgen_laws::laws::row_reads_back;
    let _: fn() = ncgen_laws::laws::piece_reads_back;
}
