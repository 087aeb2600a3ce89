use crate::bytes::Bytes;
use crate::params::{Columns, Params};
use crate::words::Words;
use fx_arith::Fx;

/// A record of a trace: one command with its arguments. The reader makes it of the bytes, and the context
/// runs it. Commands stand in groups by subject. An argument of one of GL's families is kept as its code, since
/// only the command that runs says which codes it knows.
#[derive(Drop)]
pub enum Rec {
    /// The trace ends here.
    End,
    /// The surface is presented.
    Swap,
    /// Commands before it are to be carried out soon; here they always are (OpenGL ES 1.1.12, 5.5).
    Flush,
    /// The error flag is answered and cleared (OpenGL ES 1.1.12, 2.5).
    GetError,
    /// A value of the state is answered (OpenGL ES 1.1.12, 6.1).
    Get {
        query: u32,
    },
    /// Whether a capability or an array is on is answered (OpenGL ES 1.1.12, 6.1.1).
    IsEnabled {
        capability: u32,
    },
    /// Whether a name is that of a buffer object is answered (OpenGL ES 1.1.12, 6.1).
    IsBuffer {
        name: u32,
    },
    /// Whether a name is that of a texture object is answered (OpenGL ES 1.1.12, 6.1.4).
    IsTexture {
        name: u32,
    },
    /// A client region holds these bytes from now on, and no others. Arrays are read from regions.
    ClientBytes {
        region: u32,
        piece: Bytes,
    },
    /// Where the vertex array lies (OpenGL ES 1.1.12, 2.8): components of a vertex, their type, the bytes from
    /// one vertex to the next, the client region, and the byte of the region at which it begins.
    VertexPointer {
        size: i32,
        kind: u32,
        stride: i32,
        region: u32,
        offset: u32,
    },
    /// Where the array of normals lies: as VertexPointer, with three components of each.
    NormalPointer {
        kind: u32,
        stride: i32,
        region: u32,
        offset: u32,
    },
    /// Where the array of colours lies: as VertexPointer.
    ColorPointer {
        size: i32,
        kind: u32,
        stride: i32,
        region: u32,
        offset: u32,
    },
    /// Where the array of texture coordinates lies of the client's active unit: as VertexPointer.
    TexCoordPointer {
        size: i32,
        kind: u32,
        stride: i32,
        region: u32,
        offset: u32,
    },
    /// Switches an array on.
    EnableClientState {
        array: u32,
    },
    /// Switches an array off.
    DisableClientState {
        array: u32,
    },
    /// The texture unit whose array of texture coordinates later commands of arrays speak of
    /// (OpenGL ES 1.1.12, 2.8).
    ClientActiveTexture {
        texture: u32,
    },
    /// Draws the vertices `first` to `first + count - 1` of the arrays (OpenGL ES 1.1.12, 2.8).
    DrawArrays {
        mode: u32,
        first: i32,
        count: i32,
    },
    /// Draws the vertices of the arrays whose indices stand one after the other in a client region, from this byte
    /// on; `kind` is the type of an index (OpenGL ES 1.1.12, 2.8).
    DrawElements {
        mode: u32,
        count: i32,
        kind: u32,
        region: u32,
        offset: u32,
    },
    /// The texture unit that later commands of textures speak of (OpenGL ES 1.1.12, 2.7).
    ActiveTexture {
        texture: u32,
    },
    /// The colour of later vertices (OpenGL ES 1.1.12, 2.7).
    Color4x {
        red: Fx,
        green: Fx,
        blue: Fx,
        alpha: Fx,
    },
    /// The same, in 255ths.
    Color4ub {
        red: u8,
        green: u8,
        blue: u8,
        alpha: u8,
    },
    /// The normal of later vertices (OpenGL ES 1.1.12, 2.7).
    Normal3x {
        x: Fx,
        y: Fx,
        z: Fx,
    },
    /// The texture coordinates of later vertices, for one texture unit (OpenGL ES 1.1.12, 2.7).
    MultiTexCoord4x {
        texture: u32,
        s: Fx,
        t: Fx,
        r: Fx,
        q: Fx,
    },
    /// So many names that no buffer object has are given, and are names of buffer objects from here on
    /// (OpenGL ES 1.1.12, 2.9).
    GenBuffers {
        count: i32,
    },
    /// These names, and the buffer objects that they name, are gone (OpenGL ES 1.1.12, 2.9).
    DeleteBuffers {
        names: Words,
    },
    /// The buffer object that a target speaks of from here on; with name 0 none (OpenGL ES 1.1.12, 2.9).
    BindBuffer {
        target: u32,
        name: u32,
    },
    /// The bound buffer object holds `size` bytes from here on, and no others: those of the piece, zeros past its
    /// end (OpenGL ES 1.1.12, 2.9).
    BufferData {
        target: u32,
        usage: u32,
        size: i32,
        piece: Bytes,
    },
    /// `size` bytes of the bound buffer object, from this byte on, are those of the piece, zeros past its end
    /// (OpenGL ES 1.1.12, 2.9).
    BufferSubData {
        target: u32,
        offset: i32,
        size: i32,
        piece: Bytes,
    },
    /// Which matrices later commands act on (OpenGL ES 1.1.12, 2.10.2).
    MatrixMode {
        mode: u32,
    },
    /// The current matrix changes nothing from here on.
    LoadIdentity,
    /// The current matrix is this one from here on.
    LoadMatrixx {
        columns: Columns,
    },
    /// The current matrix is multiplied by this one, which stands on the right.
    MultMatrixx {
        columns: Columns,
    },
    /// The current matrix is kept, and stays current.
    PushMatrix,
    /// The matrix that was kept last is current again.
    PopMatrix,
    /// The current matrix is multiplied by a rotation by so many degrees about this axis.
    Rotatex {
        angle: Fx,
        x: Fx,
        y: Fx,
        z: Fx,
    },
    /// The current matrix is multiplied by a scaling.
    Scalex {
        x: Fx,
        y: Fx,
        z: Fx,
    },
    /// The current matrix is multiplied by a translation.
    Translatex {
        x: Fx,
        y: Fx,
        z: Fx,
    },
    /// The current matrix is multiplied by a perspective projection.
    Frustumx {
        left: Fx,
        right: Fx,
        bottom: Fx,
        top: Fx,
        near: Fx,
        far: Fx,
    },
    /// The current matrix is multiplied by a parallel projection.
    Orthox {
        left: Fx,
        right: Fx,
        bottom: Fx,
        top: Fx,
        near: Fx,
        far: Fx,
    },
    /// Where the window lies on the surface, in pixels (OpenGL ES 1.1.12, 2.10.1).
    Viewport {
        x: i32,
        y: i32,
        width: i32,
        height: i32,
    },
    /// The depths of the near and of the far plane (OpenGL ES 1.1.12, 2.10.1).
    DepthRangex {
        near: Fx,
        far: Fx,
    },
    /// Which triangles are culled: those that face front, back, or all (OpenGL ES 1.1.12, 3.5.1).
    CullFace {
        face: u32,
    },
    /// Which way round the corners of a triangle that faces front are seen to go (OpenGL ES 1.1.12, 2.12.1).
    FrontFace {
        winding: u32,
    },
    /// Flat or smooth shading (OpenGL ES 1.1.12, 2.12.6).
    ShadeModel {
        model: u32,
    },
    /// The size of points, in pixels (OpenGL ES 1.1.12, 3.3).
    PointSizex {
        size: Fx,
    },
    /// The width of lines, in pixels (OpenGL ES 1.1.12, 3.4).
    LineWidthx {
        width: Fx,
    },
    /// What is added to the depths of a triangle (OpenGL ES 1.1.12, 3.5.2).
    PolygonOffsetx {
        factor: Fx,
        units: Fx,
    },
    /// The plane that the user clips at, in object coordinates (OpenGL ES 1.1.12, 2.11).
    ClipPlanex {
        plane: u32,
        equation: Params,
    },
    /// How carefully something is to be done (OpenGL ES 1.1.12, 5.6).
    Hint {
        target: u32,
        mode: u32,
    },
    /// Which samples of a pixel are covered (OpenGL ES 1.1.12, 4.1.3). There is one sample a pixel.
    SampleCoveragex {
        value: Fx,
        invert: bool,
    },
    /// Switches a capability on.
    Enable {
        capability: u32,
    },
    /// Switches a capability off.
    Disable {
        capability: u32,
    },
    /// A parameter of fog (OpenGL ES 1.1.12, 3.8).
    Fogx {
        parameter: u32,
        values: Params,
    },
    /// A parameter of a light (OpenGL ES 1.1.12, 2.12.2).
    Lightx {
        light: u32,
        parameter: u32,
        values: Params,
    },
    /// A parameter of the lighting model (OpenGL ES 1.1.12, 2.12.2).
    LightModelx {
        parameter: u32,
        values: Params,
    },
    /// A parameter of the material (OpenGL ES 1.1.12, 2.12.2).
    Materialx {
        face: u32,
        parameter: u32,
        values: Params,
    },
    /// The alpha test: a comparison, and what alpha is compared with (OpenGL ES 1.1.12, 4.1.4).
    AlphaFuncx {
        comparison: u32,
        reference: Fx,
    },
    /// The stencil test: a comparison, what is compared, and the bits of both that are (OpenGL ES 1.1.12, 4.1.5).
    StencilFunc {
        comparison: u32,
        reference: i32,
        mask: u32,
    },
    /// What becomes of a stencil value where the stencil test fails, where the depth test fails, and where both
    /// pass (OpenGL ES 1.1.12, 4.1.5).
    StencilOp {
        stencil_fail: u32,
        depth_fail: u32,
        depth_pass: u32,
    },
    /// The bits of a stencil value that are written (OpenGL ES 1.1.12, 4.2.2).
    StencilMask {
        mask: u32,
    },
    /// The depth test: a comparison (OpenGL ES 1.1.12, 4.1.6).
    DepthFunc {
        comparison: u32,
    },
    /// Whether depths are written (OpenGL ES 1.1.12, 4.2.2).
    DepthMask {
        write: bool,
    },
    /// The box outside of which nothing is drawn, in pixels (OpenGL ES 1.1.12, 4.1.2).
    Scissor {
        x: i32,
        y: i32,
        width: i32,
        height: i32,
    },
    /// How the incoming colour and the one that is there are mixed (OpenGL ES 1.1.12, 4.1.7).
    BlendFunc {
        source: u32,
        destination: u32,
    },
    /// The logical operation (OpenGL ES 1.1.12, 4.1.9).
    LogicOp {
        operation: u32,
    },
    /// Which components of a colour are written (OpenGL ES 1.1.12, 4.2.2).
    ColorMask {
        red: bool,
        green: bool,
        blue: bool,
        alpha: bool,
    },
    /// The colour of later Clears (OpenGL ES 1.1.12, 4.2.3).
    ClearColorx {
        red: Fx,
        green: Fx,
        blue: Fx,
        alpha: Fx,
    },
    /// The depth of later Clears (OpenGL ES 1.1.12, 4.2.3).
    ClearDepthx {
        depth: Fx,
    },
    /// The stencil value of later Clears (OpenGL ES 1.1.12, 4.2.3).
    ClearStencil {
        stencil: i32,
    },
    /// Clears the buffers that the mask names: colour 0x4000, depth 0x0100, stencil 0x0400.
    Clear {
        mask: u32,
    },
    /// So many names of texture objects are given, the least that aren't live (OpenGL ES 1.1.12, 3.7.11).
    GenTextures {
        count: i32,
    },
    /// These names, and the texture objects that they name, are gone (OpenGL ES 1.1.12, 3.7.11).
    DeleteTextures {
        names: Words,
    },
    /// The texture object that the active unit and commands of images speak of from here on; name 0 is an object of
    /// its own, the same for all units (OpenGL ES 1.1.12, 3.7.11).
    BindTexture {
        target: u32,
        name: u32,
    },
    /// A parameter of the bound texture: a filter, how coordinates wrap, or whether smaller levels are made of level 0
    /// (OpenGL ES 1.1.12, 3.7.4).
    TexParameterx {
        target: u32,
        parameter: u32,
        value: u32,
    },
    /// A level of the bound texture's image is given anew: its number, the format it is kept in, its sides in texels,
    /// its border, and the format and the type of the piece's texels (OpenGL ES 1.1.12, 3.7.1).
    TexImage2D {
        target: u32,
        level: i32,
        internal: u32,
        width: i32,
        height: i32,
        border: i32,
        format: u32,
        kind: u32,
        piece: Bytes,
    },
    /// A box of texels of a level, by its column and row and its sides, is replaced by those of the piece
    /// (OpenGL ES 1.1.12, 3.7.2).
    TexSubImage2D {
        target: u32,
        level: i32,
        x: i32,
        y: i32,
        width: i32,
        height: i32,
        format: u32,
        kind: u32,
        piece: Bytes,
    },
    /// Levels of the bound texture's image, from 0 to `-level`, are given anew by a palette and indices into it, `size`
    /// bytes in all (OpenGL ES 1.1.12, 3.7.3; OES_compressed_paletted_texture).
    CompressedTexImage2D {
        target: u32,
        level: i32,
        internal: u32,
        width: i32,
        height: i32,
        border: i32,
        size: i32,
        piece: Bytes,
    },
    /// A parameter of the active unit's texture environment (OpenGL ES 1.1.12, 3.7.12).
    TexEnvx {
        target: u32,
        parameter: u32,
        values: Params,
    },
    /// How rows of pixels lie in memory (OpenGL ES 1.1.12, 3.6.1 and 4.3.1).
    PixelStorei {
        parameter: u32,
        value: i32,
    },
}
