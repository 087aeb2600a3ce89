ghost use Rattle.std.specs.Prelude.{◌≡◌, [], false, IfOk, OnErr, OnSome};
ghost use Rattle.gl_records.specs.Size.{IsSize};
ghost use Rattle.gl_query.specs.Values.{answered, one as one_of, truth as truth_of};
ghost use Rattle.draw_front.specs.Call.{answer_error, bound_names, changes_memory, changes_textures, commanded, image_written, on_arrays, queried, with_error};
ghost use Rattle.draw_front.specs.Context.{opening_context};
ghost use Rattle.draw_front.specs.Draws.{memory_of};
ghost use Rattle.vertex_fetch.specs.Arrays.{with_command};
ghost use Rattle.gl_records.specs.declared.rec.Rec.TheVariants.{BufferSubData, ClientActiveTexture, DeleteBuffers, GenBuffers, GenTextures};

use crate::owned_textures::OwnedTextures;
use buffer_objects::{BufferKey, Buffers};
use draw_primitives::Memory;
use gl_query::{Bound, Values, answer, truth};
use gl_records::{Bytes, Rec, Size, Words};
use gl_state::{ErrorFlag, State, clear_error};
use gl_tokens::{ArrayKind, BufferTarget, GlError};
use std::alloc::{AllocError, Global};
use std::marker::Model;
use texture_ghosts::Lent;
use vertex_fetch::{Arrays, Regions, draw_error};

/// What the commands leave.
#[derive(Drop)]
pub struct Context {
    pub(crate) state: State,
    /// The first error since the flag was taken.
    pub(crate) flag: ErrorFlag,
    /// Where the vertex arrays lie, and which of them are on.
    pub(crate) arrays: Arrays,
    /// What client regions hold.
    pub(crate) regions: Regions,
    /// The buffer objects, and which are bound.
    pub(crate) buffers: Buffers,
    /// The texture objects, and which are bound.
    pub(crate) textures: OwnedTextures,
}

impl Model for Context {
    ghost use Rattle.buffer_objects.specs.Buffers.{buffers_code};
    ghost use Rattle.draw_front.specs.Context.{Context};
    ghost use Rattle.std.specs.Coded.{codes};
    ghost use Rattle.std.specs.FinMap as map;

    ghost Value = { Context };

    ghost coded = { Prim.hlevel (codes, map.code, buffers_code) };

    ghost view = { λ context. record {
      state = context.state;
      flag = context.flag;
      arrays = context.arrays;
      regions = context.regions;
      buffers = context.buffers;
      textures = context.textures;
    } };
}

impl Context {
    /// Before the first command, for a surface of this size.
    pub fn new(alloc: Global, size: Size) -> Context
        requires { IsSize size }
        ensures { result ≡ opening_context size }
    {
        Context {
            state: State::new(size),
            flag: ErrorFlag::new(),
            arrays: Arrays::new(),
            regions: Regions::new(alloc),
            buffers: Buffers::new(alloc),
            textures: OwnedTextures::new(alloc),
        }
    }

    /// Runs the record's command, and answers its error, which the flag doesn't have yet. Where memory is out, nothing is
    /// changed.
    pub fn run(&mut self, rec: Rec, lent: &Lent) -> Result<Option<GlError>, AllocError>
        requires lent { lent.now ≡ [] }
        ensures run { IfOk result (λ error. (self.new, error) ≡ commanded self.old rec) }
        ensures unchanged { IfOk result (λ error. OnSome error (self.new ≡ self.old)) }
        ensures memory { OnErr result (self.new ≡ self.old) }
    {
        match rec {
            Rec::ClientBytes { region, piece } => Ok(self.regions.set(region, piece)),
            Rec::GenBuffers { count } => self.gen_buffers(count),
            Rec::BindBuffer { target, name } => self.buffers.bind(target, name),
            Rec::BufferData {
                target,
                usage,
                size,
                piece,
            } => self.buffers.fill(target, usage, size, piece),
            Rec::DeleteBuffers { names } => Ok(self.delete_buffers(&names)),
            Rec::BufferSubData {
                target,
                offset,
                size,
                piece,
            } => Ok(self.buffer_sub_data(target, offset, size, &piece)),
            rec => self.run_on_textures(&rec, lent),
        }
    }

    /// Runs a command that changes no client region, no buffer object and no binding of one.
    fn run_on_textures(&mut self, rec: &Rec, lent: &Lent) -> Result<Option<GlError>, AllocError>
        requires lent { lent.now ≡ [] }
        requires memory { changes_memory rec.now ≡ false }
        ensures run { IfOk result (λ error. (self.new, error) ≡ commanded self.old rec.now) }
        ensures unchanged { IfOk result (λ error. OnSome error (self.new ≡ self.old)) }
        ensures memory { OnErr result (self.new ≡ self.old) }
    {
        match rec {
            Rec::GenTextures { count } => self.gen_textures(*count),
            Rec::DeleteTextures { names } => {
                self.textures.drop_names(lent, names.as_slice());
                Ok(None)
            }
            Rec::BindTexture { target, name } => {
                let unit = self.state.unit();
                self.textures.bind(unit, *target, *name)
            }
            Rec::TexParameterx {
                target,
                parameter,
                value,
            } => {
                let unit = self.state.unit();
                Ok(self.textures.set_param(unit, *target, *parameter, *value))
            }
            Rec::TexImage2D { .. } | Rec::TexSubImage2D { .. } | Rec::CompressedTexImage2D { .. } =>
                self.write_image(rec, lent),
            _ => Ok(self.run_beside_objects(rec)),
        }
    }

    /// Runs a command that changes no client region, no buffer object and no texture object, and no binding of one.
    fn run_beside_objects(&mut self, rec: &Rec) -> Option<GlError>
        requires memory { changes_memory rec.now ≡ false }
        requires textures { changes_textures rec.now ≡ false }
        ensures run { (self.new, result) ≡ commanded self.old rec.now }
        ensures unchanged { OnSome result (self.new ≡ self.old) }
    {
        match rec {
            Rec::GetError => {
                self.flag.take();
                None
            }
            Rec::Get { .. }
            | Rec::IsEnabled { .. }
            | Rec::IsBuffer { .. }
            | Rec::IsTexture { .. } => self.query_error(rec),
            Rec::VertexPointer { .. }
            | Rec::NormalPointer { .. }
            | Rec::ColorPointer { .. }
            | Rec::TexCoordPointer { .. }
            | Rec::EnableClientState { .. }
            | Rec::DisableClientState { .. } => self.set_array(rec),
            Rec::ClientActiveTexture { texture } => self.client_unit(*texture),
            Rec::DrawArrays { .. } | Rec::DrawElements { .. } => {
                draw_error(rec, self.element_buffer())
            }
            Rec::Clear { mask } => clear_error(*mask),
            _ => self.state.apply(rec),
        }
    }

    fn gen_buffers(&mut self, count: i32) -> Result<Option<GlError>, AllocError>
        ensures run { IfOk result (λ error. (self.new, error) ≡ commanded self.old (GenBuffers count)) }
        ensures unchanged { IfOk result (λ error. OnSome error (self.new ≡ self.old)) }
        ensures memory { OnErr result (self.new ≡ self.old) }
    {
        match self.buffers.make_names(count)? {
            Ok(_) => Ok(None),
            Err(error) => Ok(Some(error)),
        }
    }

    fn gen_textures(&mut self, count: i32) -> Result<Option<GlError>, AllocError>
        ensures run { IfOk result (λ error. (self.new, error) ≡ commanded self.old (GenTextures count)) }
        ensures unchanged { IfOk result (λ error. OnSome error (self.new ≡ self.old)) }
        ensures memory { OnErr result (self.new ≡ self.old) }
    {
        self.textures.make_names(count)
    }

    /// A command that gives an image or a part of one.
    fn write_image(&mut self, rec: &Rec, lent: &Lent) -> Result<Option<GlError>, AllocError>
        requires lent { lent.now ≡ [] }
        ensures run { IfOk result (λ error. (self.new, error) ≡ image_written self.old rec.now) }
        ensures unchanged { IfOk result (λ error. OnSome error (self.new ≡ self.old)) }
        ensures memory { OnErr result (self.new ≡ self.old) }
    {
        let (unpack, _) = self.state.aligns();
        let unit = self.state.unit();
        self.textures.write(lent, unit, unpack, rec)
    }

    fn delete_buffers(&mut self, names: &Words) -> Option<GlError>
        ensures run { (self.new, result) ≡ commanded self.old (DeleteBuffers names.now) }
        ensures unchanged { OnSome result (self.new ≡ self.old) }
    {
        self.buffers.drop_names(names.as_slice());
        None
    }

    fn buffer_sub_data(
        &mut self,
        target: u32,
        offset: i32,
        size: i32,
        piece: &Bytes,
    ) -> Option<GlError>
        ensures run { (self.new, result) ≡ commanded self.old (BufferSubData target offset size piece.now) }
        ensures unchanged { OnSome result (self.new ≡ self.old) }
    {
        self.buffers.sub(target, offset, size, piece.as_slice())
    }

    /// The buffer object that is bound to ARRAY_BUFFER.
    fn array_buffer(&self) -> Option<BufferKey>
        ensures { result ≡ self.now.buffers.bindings.array }
    {
        match self.buffers.bound(BufferTarget::Array.code()) {
            Some((_, key)) => Some(key),
            None => None,
        }
    }

    /// The buffer object that is bound to ELEMENT_ARRAY_BUFFER.
    pub fn element_buffer(&self) -> Option<BufferKey>
        ensures { result ≡ self.now.buffers.bindings.element_array }
    {
        match self.buffers.bound(BufferTarget::ElementArray.code()) {
            Some((_, key)) => Some(key),
            None => None,
        }
    }

    /// What vertices are read from.
    pub fn memory(&self) -> Memory<'_>
        ensures { result ≡ memory_of self.now }
    {
        Memory::new(&self.arrays, &self.buffers, &self.regions)
    }

    /// A command of an array's pointer or of its switch.
    fn set_array(&mut self, rec: &Rec) -> Option<GlError>
        ensures run { (self.new, result) ≡ on_arrays self.old (with_command self.old.arrays self.old.buffers.bindings.array rec.now) }
        ensures unchanged { OnSome result (self.new ≡ self.old) }
    {
        let bound = self.array_buffer();
        self.arrays.set(rec, bound)
    }

    /// Keeps the error in the flag, if that had none.
    pub fn raise(&mut self, error: GlError)
        ensures { self.new ≡ with_error self.old error }
    {
        self.flag.raise(error);
    }

    /// ClientActiveTexture: the arrays go by it, and the state has it for queries.
    fn client_unit(&mut self, texture: u32) -> Option<GlError>
        ensures run { (self.new, result) ≡ commanded self.old (ClientActiveTexture texture) }
        ensures unchanged { OnSome result (self.new ≡ self.old) }
    {
        let rec = Rec::ClientActiveTexture { texture };
        if let Some(error) = self.set_array(&rec) {
            return Some(error);
        }
        self.state.apply(&rec);
        None
    }

    /// What a query answers; IsBuffer and IsTexture are such. InvalidEnum where Get asks for a value that isn't answered, or IsEnabled for
    /// what is neither a capability nor an array.
    pub fn query(&self, rec: &Rec) -> Result<Values, GlError>
        ensures { answered result ≡ queried self.now rec.now }
    {
        match rec {
            Rec::IsEnabled { capability } => {
                if let Some(kind) = ArrayKind::from_code(*capability) {
                    return Ok(truth(self.arrays.enabled(kind)));
                }
                answer(&self.state, &self.bound(), rec)
            }
            Rec::IsBuffer { name } => Ok(truth(self.buffers.is_buffer(*name))),
            Rec::IsTexture { name } => Ok(truth(self.textures.is_texture(*name))),
            _ => answer(&self.state, &self.bound(), rec),
        }
    }

    /// The names of what is bound.
    fn bound(&self) -> Bound
        ensures { result ≡ bound_names self.now }
    {
        Bound {
            array: self.buffers.binding(BufferTarget::Array),
            element: self.buffers.binding(BufferTarget::ElementArray),
            textures: [self.textures.bound(0), self.textures.bound(1)],
        }
    }

    fn query_error(&self, rec: &Rec) -> Option<GlError>
        ensures { result ≡ answer_error (queried self.now rec.now) }
    {
        match self.query(rec) {
            Ok(_) => None,
            Err(error) => Some(error),
        }
    }
}
