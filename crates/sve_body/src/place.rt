use sve_bytes::Name;

/// Where the definition of a module or an interface stands (IEEE 1800-2017, 23.3).
pub struct Place {
    /// Its file.
    pub file: Name,
    /// Its chunk in the file, from 0.
    pub chunk: u32,
}

impl Drop for Place {
    fn drop(self) {
        let Place { file: _, chunk: _ } = self;
    }
}
