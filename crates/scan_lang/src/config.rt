ghost use Rattle.std.specs.Prelude.{◌≡◌, ◌+◌, ◌<◌, pos, Ok, Err, ok_or, is_some, length, unsigned_abs, IfOk};
ghost use Rattle.serde_json.specs.View.{view};
ghost use Rattle.scan_io.specs.Reading.{UnlessOutOfMemory, turned};
ghost use Rattle.camera.specs.Cameras.{within as is_within, IsCamera};
ghost use Rattle.camera.specs.Opening.{camera_of};
ghost use Rattle.scan_lang.specs.Config.{config_cause, object_of, named, is_named as has_only_names, has_names as has_all_names, integer_at, camera_fields_of, fields_of, passed, version_tests, limit_tests, made, checked, bad_camera, config_in as config_in_object, config_of, IsConfig};
ghost use Rattle.scan_lang.specs.declared.config.ConfigError.TheVariants.{Bad};

use camera::{BadCamera, Camera, CameraFields, first_failing};
use serde_json::Value;
use std::alloc::Global;
use std::error::Error;
use std::fmt;
use std::marker::Model;

/// Why a configuration is refused. A field's number is that of the table in docs/SCAN.md.
#[derive(Clone, Copy, Debug, PartialEq, Eq)]
pub enum BadConfig {
    /// The line is not JSON, or not an object.
    Json,
    /// A name is missing, or there is an unknown one.
    Names,
    /// The field of this number is not a whole number of 64 bits, or is out of its range.
    Field(u8),
    /// A frame may touch what lies more than 17 metres from the axis.
    Reach,
    /// A frame may touch what lies outside the active sphere.
    Sphere,
}

/// Why no configuration was read.
#[derive(Clone, Copy, Debug, PartialEq, Eq)]
pub enum ConfigError {
    /// The line is not a configuration.
    Bad(BadConfig),
    /// Out of memory.
    NoMemory,
}

impl fmt::Display for BadConfig {
    fn fmt<W: fmt::Write>(&self, f: &mut fmt::Formatter<W>) -> fmt::Result {
        match self {
            BadConfig::Json => write!(f, "it is not a JSON object"),
            BadConfig::Names => write!(f, "a name is missing, or unknown"),
            BadConfig::Field(number) => write!(f, "field {number} is out of its range"),
            BadConfig::Reach => write!(
                f,
                "a frame may touch what lies more than 17 metres from the axis"
            ),
            BadConfig::Sphere => write!(f, "a frame may touch what lies outside the active sphere"),
        }
    }
}

impl fmt::Display for ConfigError {
    fn fmt<W: fmt::Write>(&self, f: &mut fmt::Formatter<W>) -> fmt::Result {
        match self {
            ConfigError::Bad(why) => write!(f, "{why}"),
            ConfigError::NoMemory => write!(f, "out of memory"),
        }
    }
}

impl Error for ConfigError {}

impl From<BadConfig> for ConfigError {
    ghost from_gives = { λ why e. e ≡ Bad why };

    fn from(why: BadConfig) -> Self {
        ConfigError::Bad(why)
    }
}

/// The fields of a configuration, before they are tested. docs/SCAN.md has their ranges.
#[derive(Clone, Copy, Debug, PartialEq, Eq)]
pub struct ConfigFields {
    /// The version of the rules, 1.
    pub version: i64,
    /// The camera and the space around it.
    pub camera: CameraFields,
    /// The greatest weight of a voxel.
    pub max_weight: i64,
    /// The number of blocks that may be active for a frame.
    pub heap_blocks: i64,
    /// The number of buckets of the hash of blocks.
    pub buckets: i64,
    /// The least size of a distance in an empty block; 32767 is the truncation distance.
    pub empty_f: i64,
}

/// The configuration of a scan. Every field is in its range, and the camera passed the opening test.
#[derive(Clone, Copy, Debug)]
pub struct Config {
    version: u8,
    camera: Camera,
    max_weight: u8,
    heap_blocks: u32,
    buckets: u32,
    empty_f: i16,
}

impl Model for Config {
    ghost use Rattle.scan_lang.specs.Config.{Config as Settings, IsConfig};

    ghost Value = { Settings };

    ghost view = { λ c. record { version = c.version; camera = c.camera; max_weight = c.max_weight; heap_blocks = c.heap_blocks; buckets = c.buckets; empty_f = c.empty_f } };

    ghost inverse = { λ v. record { version = v.version; camera = v.camera; max_weight = v.max_weight; heap_blocks = v.heap_blocks; buckets = v.buckets; empty_f = v.empty_f } };

    ghost invariant = { λ c. IsConfig (record { version = c.version; camera = c.camera; max_weight = c.max_weight; heap_blocks = c.heap_blocks; buckets = c.buckets; empty_f = c.empty_f }) };
}

impl Config {
    /// The configuration of these fields, or the first test that they fail: the version, the camera's tests, then the
    /// ranges of the other fields.
    #[tactic(auto, unfolding(crate::specs::Config::checked))]
    pub fn make(fields: ConfigFields) -> Result<Config, BadConfig>
        ensures value { result ≡ checked fields }
        ensures known { IfOk result IsConfig }
    {
        check_version(&fields)?;
        let camera = make_camera(fields.camera)?;
        check_limits(&fields)?;
        Ok(made_from(&fields, camera))
    }

    /// The version of the rules.
    pub fn version(&self) -> u8
        ensures { result ≡ self.now.version }
    {
        self.version
    }

    /// The camera and the space around it.
    pub fn camera(&self) -> &Camera
        ensures value { result.now ≡ self.now.camera }
        ensures config { IsConfig self.now }
    {
        &self.camera
    }

    /// The greatest weight of a voxel, from 1 to 255.
    pub fn max_weight(&self) -> u8
        ensures value { result ≡ self.now.max_weight }
        ensures config { IsConfig self.now }
    {
        self.max_weight
    }

    /// The number of blocks that may be active for a frame, from 1 to 65536.
    pub fn heap_blocks(&self) -> u32
        ensures value { result ≡ self.now.heap_blocks }
        ensures config { IsConfig self.now }
    {
        self.heap_blocks
    }

    /// The number of buckets of the hash of blocks, a power of two from 1 to 65536.
    pub fn buckets(&self) -> u32
        ensures value { result ≡ self.now.buckets }
        ensures config { IsConfig self.now }
    {
        self.buckets
    }

    /// A block whose distances all have at least this size holds no surface; from 0 to 32767.
    pub fn empty_f(&self) -> i16
        ensures value { result ≡ self.now.empty_f }
        ensures config { IsConfig self.now }
    {
        self.empty_f
    }
}

const NAMES: [&str; 18] = [
    "version",
    "width",
    "height",
    "fx",
    "fy",
    "cx",
    "cy",
    "unit",
    "near",
    "far",
    "voxel",
    "mu",
    "radius",
    "centre",
    "max_weight",
    "heap_blocks",
    "buckets",
    "empty_f",
];

/// Reads a configuration from a line: one JSON object with eighteen names, each with a whole number in its range. A
/// line that is none is refused by the first test that it fails.
#[tactic(auto, unfolding(crate::specs::Config::config_of))]
pub fn read_config(alloc: Global, line: &[u8]) -> Result<Config, ConfigError>
    ensures config { UnlessOutOfMemory config_cause (λ c. c) result (config_of line.now) }
    ensures known { IfOk result IsConfig }
{
    let value = read_object(alloc, line)?;
    Ok(config_in(&value)?)
}

#[tactic(auto, unfolding(crate::specs::Config::object_of))]
fn read_object(alloc: Global, line: &[u8]) -> Result<Value, ConfigError>
    ensures { UnlessOutOfMemory config_cause view result (object_of line.now) }
{
    match Value::from_slice(alloc, line) {
        Ok(value) => {
            if value.is_object() {
                Ok(value)
            } else {
                Err(ConfigError::Bad(BadConfig::Json))
            }
        }
        Err(e) => {
            if e.is_memory() {
                Err(ConfigError::NoMemory)
            } else {
                Err(ConfigError::Bad(BadConfig::Json))
            }
        }
    }
}

#[tactic(auto, unfolding(crate::specs::Config::config_in))]
fn config_in(value: &Value) -> Result<Config, BadConfig>
    ensures value { result ≡ config_in_object (view value.now) }
    ensures known { IfOk result IsConfig }
{
    check_names(value)?;
    Config::make(read_fields(value)?)
}

#[tactic(auto, unfolding(crate::specs::Config::named))]
fn check_names(value: &Value) -> Result<(), BadConfig>
    ensures { result ≡ named (view value.now) }
{
    if is_named(value) {
        Ok(())
    } else {
        Err(BadConfig::Names)
    }
}

fn is_named(value: &Value) -> bool
    ensures { result ≡ has_only_names (view value.now) }
{
    match value.as_object() {
        Some(map) => map.len() == NAMES.len() && has_names(value),
        None => false,
    }
}

fn has_names(value: &Value) -> bool
    ensures { result ≡ has_all_names (view value.now) }
{
    NAMES.iter().all(|name| value.get(*name).is_some())
}

#[tactic(auto, unfolding(crate::specs::Config::integer_at))]
fn integer(value: &Value, name: &str, number: u8) -> Result<i64, BadConfig>
    ensures { result ≡ integer_at name.now number (view value.now) }
{
    value
        .get(name)
        .and_then(Value::as_i64)
        .ok_or(BadConfig::Field(number))
}

#[tactic(auto, unfolding(crate::specs::Config::camera_fields_of))]
fn read_camera_fields(value: &Value) -> Result<CameraFields, BadConfig>
    ensures { result ≡ camera_fields_of (view value.now) }
{
    Ok(CameraFields {
        width: integer(value, "width", 2)?,
        height: integer(value, "height", 3)?,
        fx: integer(value, "fx", 4)?,
        fy: integer(value, "fy", 5)?,
        cx: integer(value, "cx", 6)?,
        cy: integer(value, "cy", 7)?,
        unit: integer(value, "unit", 8)?,
        near: integer(value, "near", 9)?,
        far: integer(value, "far", 10)?,
        voxel: integer(value, "voxel", 11)?,
        mu: integer(value, "mu", 12)?,
        radius: integer(value, "radius", 13)?,
        centre: integer(value, "centre", 14)?,
    })
}

#[tactic(auto, unfolding(crate::specs::Config::fields_of))]
fn read_fields(value: &Value) -> Result<ConfigFields, BadConfig>
    ensures { result ≡ fields_of (view value.now) }
{
    Ok(ConfigFields {
        version: integer(value, "version", 1)?,
        camera: read_camera_fields(value)?,
        max_weight: integer(value, "max_weight", 15)?,
        heap_blocks: integer(value, "heap_blocks", 16)?,
        buckets: integer(value, "buckets", 17)?,
        empty_f: integer(value, "empty_f", 18)?,
    })
}

fn within(low: i64, high: i64, value: i64) -> bool
    ensures { result ≡ is_within low high value }
{
    low <= value && value <= high
}

// The first test has the number `first`.
fn all_passed(tests: &[bool], first: u8) -> Result<(), BadConfig>
    requires { first + length tests.now < 256 }
    ensures { result ≡ passed first tests.now }
{
    match first_failing(tests, first) {
        Some(number) => Err(BadConfig::Field(number)),
        None => Ok(()),
    }
}

#[tactic(auto, unfolding(crate::specs::Config::version_tests))]
fn check_version(f: &ConfigFields) -> Result<(), BadConfig>
    ensures { result ≡ passed 1 (version_tests f.now) }
{
    all_passed(&[within(1, 1, f.version)], 1)
}

#[tactic(auto, unfolding(crate::specs::Config::limit_tests))]
fn check_limits(f: &ConfigFields) -> Result<(), BadConfig>
    ensures { result ≡ passed 15 (limit_tests f.now) }
{
    let tests = [
        within(1, 255, f.max_weight),
        within(1, 65536, f.heap_blocks),
        within(1, 65536, f.buckets) && f.buckets.unsigned_abs().is_power_of_two(),
        within(0, 32767, f.empty_f),
    ];
    all_passed(&tests, 15)
}

// The configuration of fields that passed all tests.
fn made_from(f: &ConfigFields, camera: Camera) -> Config
    requires same { camera ≡ f.now.camera }
    requires known { IsConfig (made f.now) }
    ensures { result ≡ made f.now }
{
    Config {
        version: f.version.unsigned_abs() as u8,
        camera,
        max_weight: f.max_weight.unsigned_abs() as u8,
        heap_blocks: f.heap_blocks.unsigned_abs() as u32,
        buckets: f.buckets.unsigned_abs() as u32,
        empty_f: f.empty_f as i16,
    }
}

fn make_camera(fields: CameraFields) -> Result<Camera, BadConfig>
    ensures value { result ≡ turned bad_camera (camera_of fields) }
    ensures camera { IfOk result (λ c. (c ≡ fields) × IsCamera c) }
{
    match Camera::make(fields) {
        Ok(camera) => Ok(camera),
        Err(BadCamera::Field(number)) => Err(BadConfig::Field(number)),
        Err(BadCamera::Reach) => Err(BadConfig::Reach),
        Err(BadCamera::Sphere) => Err(BadConfig::Sphere),
    }
}
