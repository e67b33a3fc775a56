// The laws of the trees that the grammar gives.
ghost use Rattle.grammar_laws.specs.Forms.{TreesAreFormed, PlacesKeepForms};
ghost use Rattle.grammar_laws.specs.Sizes.{TreesWeighTheirTokens, TreesTakeBytes, PlacesWeighNothing, TreesHaveFewLines};

/// In the tree of a list of tokens each statement that is an expression is a call, what is assigned
/// is a name or an index, and each generic `for` declares a name, also in the functions in it.
pub fn trees_are_formed()
    ensures { TreesAreFormed }
{}

/// Setting the places of names keeps these forms.
pub fn places_keep_forms()
    ensures { PlacesKeepForms }
{}

/// The tree of a list of tokens weighs less than there are tokens, the last of which is the end, and
/// each block in it weighs at most the tokens that were counted for it.
pub fn trees_weigh_their_tokens()
    ensures { TreesWeighTheirTokens }
{}

/// A source has at most one token more than bytes, and eight bytes for each function in its tree.
pub fn trees_take_bytes()
    ensures { TreesTakeBytes }
{}

/// Setting the places of names changes neither the weight of a tree, nor its functions, nor that its
/// blocks weigh at most their tokens.
pub fn places_weigh_nothing()
    ensures { PlacesWeighNothing }
{}

/// The lines in the tree of a source, before its places are set and afterwards, are at most one more
/// than the bytes of the source.
pub fn trees_have_few_lines()
    ensures { TreesHaveFewLines }
{}
