//! The documents whose graphs find no memory.

/// A component: a hook, a loop over its result in a scope that may return early, and an element of a second scope.
pub const COMPONENT: &str =
    r#"{"hir":{"id":"C","params":[{"k":"Place","v":0}],"body":{"entry":0,"blocks":[
{"id":0,"instructions":[0,1],"terminal":{"k":"Scope","fallthrough":8,"block":1,"scope":0,"id":3}},
{"id":1,"instructions":[2],
"terminal":{"k":"If","test":[2,"Read",true],"consequent":2,"alternate":3,"fallthrough":3,"id":5}},
{"id":2,"terminal":{"k":"Return","value":2,"id":6}},
{"id":3,"terminal":{"k":"ForOf","init":4,"test":5,"loop_block":6,"fallthrough":7,"id":7}},
{"id":4,"instructions":[3],"terminal":{"k":"Goto","variant":"Break","block":5,"id":9}},
{"id":5,"instructions":[4,5],"terminal":{"k":"Branch","test":7,"consequent":6,"alternate":7,"id":12}},
{"id":6,"instructions":[6,7],"terminal":{"k":"Goto","variant":"Continue","block":4,"id":15}},
{"id":7,"terminal":{"k":"Goto","variant":"Break","block":8,"id":16}},
{"id":8,"terminal":{"k":"Ternary","test":9,"fallthrough":12,"id":17}},
{"id":9,"instructions":[8],"terminal":{"k":"Branch","test":10,"consequent":10,"alternate":11,"id":19}},
{"id":10,"instructions":[9],"terminal":{"k":"Goto","variant":"Break","block":12,"id":21}},
{"id":11,"instructions":[10,11],"terminal":{"k":"Goto","variant":"Break","block":12,"id":24}},
{"id":12,"terminal":{"k":"Optional","optional":true,"test":13,"fallthrough":16,"id":25}},
{"id":13,"instructions":[12],"terminal":{"k":"Branch","test":15,"consequent":14,"alternate":15,"id":27}},
{"id":14,"instructions":[13,14],"terminal":{"k":"Goto","variant":"Break","block":16,"id":30}},
{"id":15,"instructions":[15,16],"terminal":{"k":"Goto","variant":"Break","block":16,"id":33}},
{"id":16,"terminal":{"k":"Scope","fallthrough":18,"block":17,"scope":1,"id":34}},
{"id":17,"instructions":[17],"terminal":{"k":"Goto","variant":"Break","block":18,"id":36}},
{"id":18,"terminal":{"k":"Return","value":21,"id":37}}]},
"instructions":[
{"id":1,"lvalue":1,"value":{"k":"LoadGlobal","binding":{"k":"Module","name":"useThing","module":"lib"}}},
{"id":2,"lvalue":2,"value":{"k":"CallExpression","callee":1,"args":[{"k":"Place","v":[0,"Read",true]}]}},
{"id":4,"lvalue":3,"value":{"k":"ArrayExpression"}},
{"id":8,"lvalue":4,"value":{"k":"GetIterator","collection":2}},
{"id":10,"lvalue":5,"value":{"k":"IteratorNext","iterator":4,"collection":2}},
{"id":11,"lvalue":7,"value":{"k":"StoreLocal","lvalue":{"kind":"Const","place":6},"value":5}},
{"id":13,"lvalue":8,"value":{"k":"PropertyLoad","object":3,"property":{"k":"String","v":"push"}}},
{"id":14,"lvalue":9,"value":{"k":"MethodCall","receiver":[3,"Store",true],"property":8,"args":[{"k":"Place","v":6}]}},
{"id":18,"lvalue":10,"value":{"k":"LoadLocal","place":0}},
{"id":20,"lvalue":11,"value":{"k":"StoreLocal","lvalue":{"kind":"Const","place":12},"value":3}},
{"id":22,"lvalue":13,"value":{"k":"Primitive","value":"Null"}},
{"id":23,"lvalue":14,"value":{"k":"StoreLocal","lvalue":{"kind":"Const","place":12},"value":13}},
{"id":26,"lvalue":15,"value":{"k":"PropertyLoad","object":0,"property":{"k":"String","v":"cb"}}},
{"id":28,"lvalue":16,"value":{"k":"CallExpression","callee":15}},
{"id":29,"lvalue":17,"value":{"k":"StoreLocal","lvalue":{"kind":"Const","place":18},"value":16}},
{"id":31,"lvalue":19,"value":{"k":"Primitive","value":"Undefined"}},
{"id":32,"lvalue":20,"value":{"k":"StoreLocal","lvalue":{"kind":"Const","place":18},"value":19}},
{"id":35,"lvalue":21,"value":{"k":"JsxExpression","tag":{"k":"Builtin","v":"ul"},"children":[[12,"Read",true]]}}]},
"env":{"identifiers":[
{"declaration_id":0,"type_":0,"name":{"k":"Named","v":"props"}},{"declaration_id":1,"type_":3},
{"declaration_id":2,"type_":0},{"declaration_id":3,"type_":1,"scope":0},{"declaration_id":4,"type_":0},
{"declaration_id":5,"type_":0},{"declaration_id":6,"type_":0,"name":{"k":"Named","v":"it"}},
{"declaration_id":7,"type_":0},{"declaration_id":8,"type_":0},{"declaration_id":9,"type_":0},
{"declaration_id":10,"type_":0},{"declaration_id":11,"type_":0},{"declaration_id":12,"type_":0},
{"declaration_id":13,"type_":0},{"declaration_id":14,"type_":0},{"declaration_id":15,"type_":0},
{"declaration_id":16,"type_":0},{"declaration_id":17,"type_":0},{"declaration_id":18,"type_":0},
{"declaration_id":19,"type_":0},{"declaration_id":20,"type_":0},{"declaration_id":21,"type_":2,"scope":1}],
"types":[
"Other",{"k":"Object","shape":"Array"},{"k":"Object","shape":"Jsx"},{"k":"Function","shape":{"k":"Row","v":0}}],
"scopes":[
{"range":{"start":3,"end":17},"dependencies":[{"identifier":2}],"declarations":[{"key":3,
"value":{"identifier":3,"scope":0}}]},
{"range":{"start":34,"end":37},"dependencies":[{"identifier":12}],"declarations":[{"key":21,
"value":{"identifier":21,"scope":1}}]}],
"shapes":[{"hook":true}],"config":{},"next_block":19}}"#;

/// An operand of scope 0 is visited at 5, outside the block of that scope. No identifier has a name, the scope depends
/// on nothing, and there is no function.
pub const OUTSIDE: &str = r#"{"hir":{"params":[{"k":"Place","v":0}],"body":{"entry":0,"blocks":[
{"id":0,"terminal":{"k":"Scope","fallthrough":2,"block":1,"scope":0,"id":1}},
{"id":1,"instructions":[0],"terminal":{"k":"Goto","variant":"Break","block":2,"id":3}},
{"id":2,"instructions":[1],"terminal":{"k":"Return","value":1,"id":5}}]},
"instructions":[
{"id":2,"lvalue":1,"value":{"k":"ArrayExpression","elements":[{"k":"Place","v":0}]}},
{"id":4,"lvalue":2,"value":{"k":"UnaryExpression","operator":"!","value":1}}]},
"env":{"identifiers":[
{"declaration_id":0,"type_":0},{"declaration_id":1,"type_":0,"scope":0},{"declaration_id":2,"type_":0}],
"types":["Other"],"scopes":[{"range":{"start":1,"end":6}}],"config":{},"next_block":3}}"#;
