//! The numbers of the fields by which names are found. Fields are counted from 0; field 0 is the
//! word after the base header.

/// The field of the special objects array that points to nil.
pub const NIL: u32 = 0;

/// The field of the special objects array that points to false.
pub const FALSE: u32 = 1;

/// The field of the special objects array that points to true.
pub const TRUE: u32 = 2;

/// The field of the special objects array that points to the dictionary of the global variables.
pub const GLOBALS: u32 = 8;

/// The field of a class that points to its superclass.
pub const SUPERCLASS: u32 = 0;

/// The field of a class that points to its method dictionary.
pub const METHOD_DICTIONARY: u32 = 1;

/// The field of a class that points to the array of the names of the instance variables that it
/// adds to those of its superclass.
pub const INSTANCE_VARIABLES: u32 = 3;

/// The field of a metaclass that points to its only instance.
pub const INSTANCE: u32 = 5;

/// The field of a class that points to its name. A metaclass has none.
pub const NAME: u32 = 6;

/// The field of a class that points to the dictionary of its class variables.
pub const CLASS_VARIABLES: u32 = 7;

/// The field of a dictionary that points to the array of its associations.
pub const ASSOCIATIONS: u32 = 1;

/// The field of a method dictionary that points to the array of its methods.
pub const METHODS: u32 = 1;

/// The field of a method dictionary that points to its first selector. The other selectors follow;
/// the method under a selector is at the same place in the array of methods.
pub const FIRST_SELECTOR: u32 = 2;

/// The field of an association that points to its key.
pub const KEY: u32 = 0;

/// The field of an association that points to its value.
pub const VALUE: u32 = 1;

/// The field of the system organizer that points to the array of the categories of classes.
pub const CATEGORIES: u32 = 1;

/// The field of the system organizer that points to the array that has for each category the number
/// of class names up to its last one.
pub const CATEGORY_ENDS: u32 = 2;

/// The field of the system organizer that points to the array of the names of all classes, in the
/// order of their categories.
pub const CATEGORIZED: u32 = 3;
